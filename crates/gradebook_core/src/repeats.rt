//! Writes under marks that are held.

ghost use Rattle.std.specs.Prelude.{◌≡◌};
ghost use Rattle.gradebook_core.specs.Judging.{MayLead, RepeatsAlone, verdict_of};
ghost use Rattle.hub_spec.specs.rules.Marked as spec;
ghost use Rattle.hub_spec.specs.rules.Verdicts.{repeated};
ghost use Rattle.version_core.specs.declared.change.BaseVersion.{BaseVersion};

use crate::judgement::Judgement;
use crate::outcome::Check;
use version_core::mark::{MarkRow, Write};

// Whether both are set, or neither is.
fn same_flag(one: bool, other: bool) -> bool
    ensures { result ≡ spec.same_flag one other }
{
    if one { other } else { !other }
}

// Whether the writes are one: what they do, to which row, with which body.
fn same_write(one: &Write, other: &Write) -> bool
    ensures { result ≡ spec.same_write one.now other.now }
{
    same_flag(one.delete, other.delete)
        && one.kind.place() == other.kind.place()
        && one.id.as_str() == other.id.as_str()
        && one.body.as_slice() == other.body.as_slice()
}

/// What becomes of a write whose mark is held.
pub fn repeated(held: &MarkRow, write: &Write) -> Judgement
    ensures verdict { (newest : BaseVersion) → verdict_of newest result ≡ repeated held.now write.now }
    ensures leads { (newest : BaseVersion) → MayLead newest result }
    ensures repeats { RepeatsAlone held.now result }
{
    if same_write(&held.write, write) {
        return Judgement::Repeat(held.kept);
    }
    Judgement::Refused(Check::MarkOfAnotherWrite)
}
