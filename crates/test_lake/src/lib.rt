//! The example district `lake`, sets of a folder in memory, and the words of a run, for the tests.
#![tactic(auto)]

mod making;
mod texts;
mod words;

pub use making::{File, file, folder, set_of};
pub use texts::{files, text_of};
pub use words::{NOON, words_of};
