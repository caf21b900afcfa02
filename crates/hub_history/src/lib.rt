//! The history of one hub that threads share: a writer that publishes it entry by entry, and readers that take what is
//! published and never wait.
#![tactic(auto)]

mod entry;
mod history;
mod naming;
mod publisher;
mod shown;
mod slot;

pub use entry::Entry;
pub use history::{Front, Head, Opened};
pub use naming::Naming;
pub use publisher::Publisher;
pub use shown::{HubReader, HubWriter, Noted, Sees, Sharing, Shown};
pub use slot::Slot;
