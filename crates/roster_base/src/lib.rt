//! What every crate above shares: want of memory, the owned lists of public types, and the words on faults and order.
#![tactic(auto)]

pub mod bytes;
pub mod copies;
pub mod items;
pub mod keeper;
pub mod limits;
pub mod memory;
pub mod order;
pub mod refusal;
pub mod same;
pub mod text;

pub use bytes::Bytes;
pub use copies::TryCopy;
pub use items::Items;
pub use keeper::KeeperError;
pub use limits::LAST_NUMBER;
pub use memory::NoMemory;
pub use order::{Keyed, sorted};
pub use refusal::Refusal;
pub use same::{Same, are_same};
pub use text::Text;
