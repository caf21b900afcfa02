//! What bodies are made of, written at the end of bytes.

ghost use Rattle.std.specs.Prelude.{◌≡◌, ◌++◌, ◌∷◌, OnOk};
ghost use Rattle.hub_format.specs.Pieces.{IsSized, number};
ghost use Rattle.copy_format.specs.Bodies.{optional_number, optional_settled, optional_sized, write_bytes};

use hub_format::{kind_byte, push_number, push_sized};
use keeper_memory::Settled;
use roster_base::NoMemory;
use roster_texts::Id;
use version_core::mark::Write;

/// Adds a number that may be missing: 0 where it is, and else 1 in front of it.
pub(crate) fn push_optional_number(to: &mut Vec<u8>, n: Option<u64>) -> Result<(), NoMemory>
    ensures { OnOk result (to.new.items ≡ to.old.items ++ optional_number n) }
{
    match n {
        Some(n) => {
            to.push(1)?;
            push_number(to, n)
        }
        None => {
            to.push(0)?;
            Ok(())
        }
    }
}

/// Adds an id that may be missing, behind its length: 0 where it is, and else 1 in front.
pub(crate) fn push_optional_id(to: &mut Vec<u8>, id: &Option<Id>) -> Result<(), NoMemory>
    ensures { OnOk result (to.new.items ≡ to.old.items ++ optional_sized id.now) }
{
    match id {
        Some(id) => {
            to.push(1)?;
            push_sized(to, id.as_str().as_bytes())
        }
        None => {
            to.push(0)?;
            Ok(())
        }
    }
}

// Adds the status and the version, behind a 1.
fn push_settled(to: &mut Vec<u8>, settled: Settled) -> Result<(), NoMemory>
    ensures { OnOk result (to.new.items ≡ to.old.items ++ 1 ∷ (number settled.status ++ number settled.version)) }
{
    to.push(1)?;
    push_number(to, u64::from(settled.status))?;
    push_number(to, settled.version)
}

/// Adds what a hub kept of an entry: 0 where it isn't known, and else 1 in front of it.
pub(crate) fn push_optional_settled(
    to: &mut Vec<u8>,
    settled: Option<Settled>,
) -> Result<(), NoMemory>
    ensures { OnOk result (to.new.items ≡ to.old.items ++ optional_settled settled) }
{
    match settled {
        Some(settled) => push_settled(to, settled),
        None => {
            to.push(0)?;
            Ok(())
        }
    }
}

/// Adds a write: 1 where it deletes and else 0, its kind, its id and its own body.
pub(crate) fn push_write(to: &mut Vec<u8>, write: &Write) -> Result<(), NoMemory>
    ensures bytes { OnOk result (to.new.items ≡ to.old.items ++ write_bytes write.now) }
    ensures id { OnOk result (IsSized write.now.id) }
{
    to.push(u8::from(write.delete))?;
    to.push(kind_byte(write.kind))?;
    push_sized(to, write.id.as_str().as_bytes())?;
    push_sized(to, write.body.as_slice())
}
