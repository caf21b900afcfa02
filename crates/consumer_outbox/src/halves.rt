//! How far the entries are settled, found by halves, so that not each of them is read.

ghost use Rattle.std.specs.Prelude.{◌≡◌, ◌≤◌, ◌<◌, IfOk, IfSome, Err};
ghost use Rattle.keeper_memory.specs.copy.Copies.{Copy};
ghost use Rattle.roster_base.specs.Faults.{Rose};
ghost use Rattle.consumer_outbox.specs.Sends.{SettledTo};

use keeper_memory::CopyKeeper;
use roster_base::KeeperError;
use std::alloc::Global;

// The number of the first entry behind one, where it is settled: then all up to it are.
fn settled_behind<C: CopyKeeper>(
    alloc: Global,
    copy: &mut C,
    after: u64,
) -> Result<Option<u64>, KeeperError>
    ensures settled { IfOk result (λ o. IfSome o (λ n. (c : Copy) → C.stands_for copy.new c → SettledTo n c.entries)) }
    ensures above { IfOk result (λ o. IfSome o (λ n. after < n)) }
    ensures same { (c : Copy) → C.stands_for copy.new c → C.stands_for copy.old c }
    ensures later { C.fault_count copy.old ≤ C.fault_count copy.new }
    ensures copy_leads { C.leads copy.old copy.new }
    ensures cause { result ≡ Err KeeperError.Failed → Rose (C.fault_count copy.old) (C.fault_count copy.new) }
{
    let Some(entry) = copy.entry(alloc, after)? else {
        return Ok(None);
    };
    match entry.settled {
        None => Ok(None),
        Some(_) => Ok(Some(entry.number)),
    }
}

/// A number up to which all entries are settled, from `from` on; where `last` is the number of the last entry, the
/// greatest such number of an entry.
pub fn settled_from<C: CopyKeeper>(
    alloc: Global,
    copy: &mut C,
    from: u64,
    last: u64,
) -> Result<u64, KeeperError>
    requires { (c : Copy) → C.stands_for copy.old c → SettledTo from c.entries }
    ensures settled { IfOk result (λ n. (c : Copy) → C.stands_for copy.new c → SettledTo n c.entries) }
    ensures above { IfOk result (λ n. from ≤ n) }
    ensures same { (c : Copy) → C.stands_for copy.new c → C.stands_for copy.old c }
    ensures later { C.fault_count copy.old ≤ C.fault_count copy.new }
    ensures copy_leads { C.leads copy.old copy.new }
    ensures cause { result ≡ Err KeeperError.Failed → Rose (C.fault_count copy.old) (C.fault_count copy.new) }
{
    let mut settled = from;
    let mut waiting = last;
    'halves: while settled < waiting {
        let middle = settled + (waiting - settled) / 2;
        match settled_behind(alloc, copy, middle)? {
            None => waiting = middle,
            Some(number) => settled = number,
        }
    }
    Ok(settled)
}
