//! The hub's answers to requests, and streams of requests, served by a hub over its keeper.
#![tactic(auto)]

pub mod answering;
mod checks;
mod contents;
pub mod desk;
mod ending;
pub mod moment;
mod reading;
pub mod reads;
mod refusals;
pub mod request_fault;
pub mod serving;
pub mod stream_end;
pub mod turn;
mod writes;

pub use answering::answer;
pub use desk::Desk;
pub use ending::stop;
pub use moment::moment_of;
pub use reads::answer_read;
pub use request_fault::RequestFault;
pub use serving::serve_stream;
pub use stream_end::StreamEnd;
pub use turn::Turn;
