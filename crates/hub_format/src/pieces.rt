//! What labels and bodies are made of, written at the end of bytes.

ghost use Rattle.std.specs.Prelude.{◌≡◌, ◌++◌, OnOk};
ghost use Rattle.hub_format.specs.Pieces.{AreSized, HasNoZero, IsSized, StaysBelowEnd, all_sized, caller_label};
ghost use Rattle.hub_format.specs.Pieces.{moment, number, owner_bytes, owner_name, schools_bytes, sized};
ghost use Rattle.std.specs.Int.{w64};
ghost use Rattle.std.specs.Int.RustNames.{FitsSigned};
ghost use Rattle.std.specs.List.{AllByRecursion};
ghost use Rattle.roster_values.specs.Kinds.{place_of_kind};

use grant_scopes::schools::Schools;
use roster_base::NoMemory;
use roster_texts::{Id, Moment, Name};
use roster_types::owner::Owner;
use roster_values::Kind;

/// Adds a number in 8 bytes.
pub fn push_number(to: &mut Vec<u8>, n: u64) -> Result<(), NoMemory>
    ensures { OnOk result (to.new.items ≡ to.old.items ++ number n) }
{
    to.extend_from_slice(&n.to_be_bytes())?;
    Ok(())
}

/// Adds a moment in two's complement.
pub(crate) fn push_moment(to: &mut Vec<u8>, at: Moment) -> Result<(), NoMemory>
    ensures bytes { OnOk result (to.new.items ≡ to.old.items ++ moment at) }
    ensures fits { FitsSigned w64 at }
{
    to.extend_from_slice(&at.milliseconds().to_be_bytes())?;
    Ok(())
}

/// Adds bytes behind their length.
pub fn push_sized(to: &mut Vec<u8>, text: &[u8]) -> Result<(), NoMemory>
    ensures bytes { OnOk result (to.new.items ≡ to.old.items ++ sized text.now) }
    ensures fits { IsSized text.now }
{
    push_number(to, text.len() as u64)?;
    to.extend_from_slice(text)?;
    Ok(())
}

/// Adds an owner: a feed under 1, a caller under 0.
pub(crate) fn push_owner(to: &mut Vec<u8>, owner: &Owner) -> Result<(), NoMemory>
    ensures bytes { OnOk result (to.new.items ≡ to.old.items ++ owner_bytes owner.now) }
    ensures fits { OnOk result (IsSized (owner_name owner.now)) }
{
    match owner {
        Owner::Feed(name) => {
            to.push(1)?;
            push_sized(to, name.as_str().as_bytes())
        }
        Owner::Caller(name) => {
            to.push(0)?;
            push_sized(to, name.as_str().as_bytes())
        }
    }
}

/// The byte of a kind.
#[tactic(auto, using(crate::proofs::KindBytes::place_byte))]
pub fn kind_byte(kind: Kind) -> u8
    ensures { result ≡ place_of_kind kind }
{
    kind.place() as u8
}

/// Adds a caller, and the 0 that ends it.
#[tactic(auto, using(crate::proofs::Names::name_has_no_zero, crate::proofs::Names::name_is_below))]
pub(crate) fn push_caller(to: &mut Vec<u8>, caller: &Name) -> Result<(), NoMemory>
    ensures bytes { OnOk result (to.new.items ≡ to.old.items ++ caller_label caller.now) }
    ensures good { HasNoZero caller.now }
    ensures below { StaysBelowEnd caller.now }
{
    to.extend_from_slice(caller.as_str().as_bytes())?;
    to.push(0)?;
    Ok(())
}

// Adds an id behind its length.
fn push_id(to: &mut Vec<u8>, id: &Id) -> Result<(), NoMemory>
    ensures bytes { OnOk result (to.new.items ≡ to.old.items ++ sized id.now) }
    ensures fits { OnOk result (IsSized id.now) }
{
    push_sized(to, id.as_str().as_bytes())
}

// Adds ids, each behind its length.
fn push_ids(to: &mut Vec<u8>, ids: &[Id]) -> Result<(), NoMemory>
    ensures bytes { OnOk result (to.new.items ≡ to.old.items ++ all_sized ids.now) }
    ensures fits { OnOk result (AllByRecursion IsSized ids.now) }
{
    for id in ids {
        push_id(to, id)?;
    }
    Ok(())
}

/// Adds schools: all of them under 0, or those that are listed under 1.
pub(crate) fn push_schools(to: &mut Vec<u8>, schools: &Schools) -> Result<(), NoMemory>
    ensures bytes { OnOk result (to.new.items ≡ to.old.items ++ schools_bytes schools.now) }
    ensures fits { OnOk result (AreSized schools.now) }
{
    match schools {
        Schools::All => {
            to.push(0)?;
            Ok(())
        }
        Schools::Listed(list) => {
            to.push(1)?;
            push_number(to, list.ids().len() as u64)?;
            push_ids(to, list.ids())
        }
    }
}
