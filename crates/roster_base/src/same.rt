//! Whether two values are equal.

ghost use Rattle.std.specs.Prelude.{◌≡◌};
ghost use Rattle.std.specs.Bool.{Decides};

use crate::items::Items;
use crate::text::Text;

/// A value of which it can be told whether another equals it. `PartialEq` promises an equivalence and no more, so that
/// no contract could conclude from it that two values are one.
pub trait Same {
    /// Whether the values are equal.
    fn is_same(&self, other: &Self) -> bool
        ensures { Decides result (self.now ≡ other.now) };
}

impl Same for Text {
    fn is_same(&self, other: &Text) -> bool {
        self.as_str() == other.as_str()
    }
}

/// Whether two lists are equal.
pub fn are_same<T: Same>(left: &[T], right: &[T]) -> bool
    ensures { Decides result (left.now ≡ right.now) }
{
    if left.len() != right.len() {
        return false;
    }
    for place in 0..left.len() {
        if !left[place].is_same(&right[place]) {
            return false;
        }
    }
    true
}

impl<T: Same> Same for Items<T> {
    fn is_same(&self, other: &Items<T>) -> bool {
        are_same(self.as_slice(), other.as_slice())
    }
}
