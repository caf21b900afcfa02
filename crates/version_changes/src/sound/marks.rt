//! Whether marks are those of a hub.

ghost use Rattle.std.specs.Prelude.{◌≡◌, ◌&&◌, nat_le, true};
ghost use Rattle.std.specs.List.{list_all};
ghost use Rattle.std.specs.List.Sorted.{IsStrictlySortedBy};
ghost use Rattle.std.specs.Ordering.{is_lt};
ghost use Rattle.version_core.specs.Marks.{AreMarks, is_outcome, mark_cmp};

use version_core::mark::MarkRow;

// Whether this may be kept of a write: 0 of a row that was put, 9 of one that was deleted, 2 to 8 of a refusal.
fn is_outcome(delete: bool, outcome: u8) -> bool
    ensures { result ≡ is_outcome delete outcome }
{
    let done = if delete { 9 } else { 0 };
    outcome == done || (2 <= outcome && outcome <= 8)
}

// Whether a mark has an outcome of its write, and a version up to the newest.
fn is_sound(newest: u64, mark: &MarkRow) -> bool
    ensures { result ≡ (is_outcome mark.now.write.delete mark.now.kept.outcome && nat_le mark.now.kept.version newest) }
{
    is_outcome(mark.write.delete, mark.kept.outcome) && mark.kept.version <= newest
}

// Whether each mark has an outcome of its write, and a version up to the newest.
fn are_sound(newest: u64, marks: &[MarkRow]) -> bool
    ensures { result ≡ list_all (λ mark. is_outcome mark.write.delete mark.kept.outcome && nat_le mark.kept.version newest) marks.now }
{
    marks.iter().all(|mark| is_sound(newest, mark))
}

// Whether one mark stands in front of another in the order of callers and numbers.
fn is_below(low: &MarkRow, high: &MarkRow) -> bool
    ensures { result ≡ is_lt (mark_cmp low.now high.now) }
{
    low.caller
        .as_str()
        .cmp(high.caller.as_str())
        .then(low.number.cmp(&high.number))
        .is_lt()
}

// Whether each mark stands in front of the next.
fn rise(marks: &[MarkRow]) -> bool
    ensures { result ≡ true → IsStrictlySortedBy mark_cmp marks.now }
{
    for place in 1..marks.len() {
        if !is_below(&marks[place - 1], &marks[place]) {
            return false;
        }
    }
    true
}

/// Whether these are marks of a hub whose newest version has this number.
pub(crate) fn are_marks(newest: u64, marks: &[MarkRow]) -> bool
    ensures { result ≡ true → AreMarks newest marks.now }
{
    if !are_sound(newest, marks) {
        return false;
    }
    rise(marks)
}
