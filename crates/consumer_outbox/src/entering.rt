//! The entering of writes.

ghost use Rattle.std.specs.Prelude.{◌≡◌, ◌≤◌, Err};
ghost use Rattle.keeper_memory.specs.copy.Copies.{Copy, IsOutWrite};
ghost use Rattle.exchange_link.specs.Entering.{EntersWrite};
ghost use Rattle.exchange_link.specs.Exchanges.{LinkState};
ghost use Rattle.exchange_link.specs.Marks.{Agree};
ghost use Rattle.exchange_link.specs.Pairs.{CopyFrom};
ghost use Rattle.roster_base.specs.Faults.{Rose};
ghost use Rattle.consumer_outbox.specs.Entered.{entry_error};

use exchange_link::EnterError;
use keeper_memory::{CopyChange, CopyKeeper, LAST};
use roster_base::KeeperError;
use std::alloc::Global;
use version_core::mark::Write;

// Why a write isn't entered where the keeper couldn't do its work.
fn entry_error(error: KeeperError) -> EnterError
    ensures { result ≡ entry_error error }
{
    match error {
        KeeperError::Failed => EnterError::KeeperFault,
        KeeperError::NoMemory => EnterError::NoMemory,
    }
}

/// Puts a write behind the other entries of the outbox, under the next number, which it gives. After `KeeperFault` it
/// was put there or not, after the other errors it was not.
pub fn enter<C: CopyKeeper>(alloc: Global, copy: &mut C, write: Write) -> Result<u64, EnterError>
    requires { IsOutWrite write }
    ensures told { CopyFrom (C.stands_for copy.old) (C.stands_for copy.new) (EntersWrite write result) }
    // Over any link that agrees with the copy before.
    ensures agree { (told : LinkState) → ((c : Copy) → C.stands_for copy.old c → Agree c told) → (c : Copy) → C.stands_for copy.new c → Agree c told }
    ensures later { C.fault_count copy.old ≤ C.fault_count copy.new }
    ensures copy_leads { C.leads copy.old copy.new }
    ensures cause { result ≡ Err EnterError.KeeperFault → Rose (C.fault_count copy.old) (C.fault_count copy.new) }
{
    match copy.state(alloc) {
        Err(error) => Err(entry_error(error)),
        Ok(state) => {
            if state.last_number >= LAST {
                return Err(EnterError::LastNumber);
            }
            let number = state.last_number + 1;
            match copy.commit(alloc, CopyChange::Enter { number, write }) {
                Err(error) => Err(entry_error(error)),
                Ok(()) => Ok(number),
            }
        }
    }
}
