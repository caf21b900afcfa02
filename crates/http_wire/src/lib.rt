//! Requests and replies of HTTP as bytes: a stream read into requests, a request and a reply written.
#![tactic(auto)]

pub mod fault;
mod front;
mod growing_text;
mod head;
mod pieces;
pub mod reader;
pub mod reply_reading;
pub mod reply_sending;
pub mod reply_text;
pub mod request_text;
pub mod stream;
pub mod text;

pub use fault::WireFault;
pub use reader::WireReader;
pub use reply_reading::{WireReply, parse_reply, reply_length};
pub use reply_sending::{reply_bytes, send_reply};
pub use reply_text::write_reply;
pub use request_text::write_request;
pub use stream::read_requests;
