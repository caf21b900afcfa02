//! The keeper of a consumer's copy: what it promises, and one in memory.

pub mod change;
pub mod entry;
pub mod keeper;
pub mod mem_copy;
mod mem_stage;
mod mem_tables;
pub mod state;
pub mod tables;

pub use change::CopyChange;
pub use entry::{OutEntry, Settled};
pub use keeper::CopyKeeper;
pub use mem_copy::MemCopy;
pub use state::{CopyState, LAST, StageState};
pub use tables::{CopyTables, HeldRows, StagedRows};
