//! The words of a run, and when it is.

use roster_base::NoMemory;
use std::alloc::Global;

/// 2024-08-01T12:00:00.000Z, the moment at which tests run the program.
pub const NOON: i64 = 1_722_513_600_000;

/// The words between spaces.
pub fn words_of(alloc: Global, line: &str) -> Result<Vec<String>, NoMemory> {
    let mut words = Vec::new(alloc);
    for word in line.split_whitespace() {
        words.push(String::from_str(alloc, word)?)?;
    }
    Ok(words)
}
