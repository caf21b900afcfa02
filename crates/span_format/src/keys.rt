//! The labels of spans, and of rows' names.

ghost use Rattle.std.specs.Prelude.{◌≡◌, ◌++◌, ◌∷◌, IfOk, OnOk};
ghost use Rattle.roster_values.specs.Kinds.{place_of_kind};
ghost use Rattle.hub_format.specs.Pieces.{HasNoZero, key_label, number};
ghost use Rattle.span_format.specs.Format.{span_label};

use hub_format::{kind_byte, number_bytes, push_number};
use roster_base::{Bytes, NoMemory};
use roster_texts::Id;
use roster_values::Kind;
use std::alloc::Global;

// A kind and an id, which has no 0.
#[tactic(auto, using(crate::proofs::Ids::id_has_no_zero))]
fn push_key(label: &mut Vec<u8>, kind: Kind, id: &Id) -> Result<(), NoMemory>
    ensures bytes { OnOk result (label.new.items ≡ label.old.items ++ key_label (place_of_kind kind, id.now)) }
    ensures plain { OnOk result (HasNoZero id.now) }
{
    label.push(kind_byte(kind))?;
    label.extend_from_slice(id.as_str().as_bytes())?;
    Ok(())
}

/// A kind and an id behind the number of a version.
pub(crate) fn name_label(
    alloc: Global,
    version: u64,
    kind: Kind,
    id: &Id,
) -> Result<Bytes, NoMemory>
    ensures { IfOk result (λ label. label ≡ number version ++ key_label (place_of_kind kind, id.now)) }
{
    let mut label = number_bytes(alloc, version)?;
    push_key(&mut label, kind, id)?;
    Ok(Bytes::from_vec(label))
}

/// A kind, an id and a 0, and the number of the version in which a row came.
pub(crate) fn span_label(alloc: Global, kind: Kind, id: &Id, first: u64) -> Result<Bytes, NoMemory>
    ensures label { IfOk result (λ label. label ≡ span_label (place_of_kind kind, id.now) first) }
    ensures plain { OnOk result (HasNoZero id.now) }
{
    let mut label = Vec::new(alloc);
    push_key(&mut label, kind, id)?;
    label.push(0)?;
    push_number(&mut label, first)?;
    Ok(Bytes::from_vec(label))
}

/// The label of a key, and behind it a 0 and a number.
pub(crate) fn label_from(alloc: Global, key: &[u8], first: u64) -> Result<Bytes, NoMemory>
    ensures { IfOk result (λ label. label ≡ key.now ++ 0 ∷ number first) }
{
    let mut label = Vec::from_slice(alloc, key)?;
    label.push(0)?;
    push_number(&mut label, first)?;
    Ok(Bytes::from_vec(label))
}
