//! One hub, many threads: readers that never wait beside one writer, over one history; connections and feeds over it.
#![tactic(auto)]

mod desk;
mod feeding;
mod laws;
mod locked;
mod seat;
mod serving;
mod shared;
mod steps;
mod work;

pub use desk::Desk;
pub use feeding::{FeedEnd, feed_shared};
pub use laws::a_seat_reads_on;
pub use locked::LockedHub;
pub use seat::{ReadSeat, Receipt};
pub use serving::serve_shared;
pub use shared::{NoPlace, SharedHub};
