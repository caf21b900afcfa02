//! What the program makes of a consumer's synchronisation, of its outbox and of what its copy holds: answers, lines,
//! statuses.
#![tactic(auto)]

pub mod held;
pub mod line;
pub mod outbox;
pub mod outbox_lines;
mod run;
mod sending;

pub use consumer_deltas as deltas;
pub use held::held_text;
pub use line::{COPY_FAILED, delta_line, delta_status, place_line, sync_line, sync_status};
pub use outbox::outbox_text;
pub use outbox_lines::{enter_line, enter_status, entered_line, send_line, send_status};
pub use run::{synchronise, synchronise_delta};
pub use sending::{enter_write, send_writes};
