//! Which rows a grant sees. Of the calls only `SeenRows::with_ancestors` takes memory.

mod ancestors;
mod chains;
mod known;
pub mod references;
mod row_test;
mod rows;
mod sight;

pub use row_test::RowTest;
pub use rows::SeenRows;
pub use sight::sees;
