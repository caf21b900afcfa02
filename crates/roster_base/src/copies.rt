//! Copies that may want memory.

ghost use Rattle.std.specs.Prelude.{◌≡◌, IfOk};

use crate::items::Items;
use crate::memory::NoMemory;
use crate::text::Text;
use std::alloc::Global;

/// A value of which an equal one can be made, memory aside.
pub trait TryCopy {
    /// An equal value.
    fn copy(&self, alloc: Global) -> Result<Self, NoMemory>
        ensures { IfOk result (λ c. c ≡ self.now) };
}

impl TryCopy for Text {
    fn copy(&self, alloc: Global) -> Result<Text, NoMemory> {
        Text::new(alloc, self.as_str())
    }
}

impl<T: TryCopy + Drop> TryCopy for Items<T> {
    fn copy(&self, alloc: Global) -> Result<Items<T>, NoMemory> {
        let mut copied = Items::new(alloc);
        for item in self.as_slice() {
            copied.push(item.copy(alloc)?)?;
        }
        Ok(copied)
    }
}
