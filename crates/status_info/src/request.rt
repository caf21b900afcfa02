//! What a request asks, apart from its bytes.

use roster_base::{Bytes, Text};
use roster_texts::Token;

/// The method of a request.
#[derive(Clone, Copy, Debug, PartialEq, Eq)]
pub enum Verb {
    Get,
    Put,
    Delete,
    Head,
    /// Any other method.
    Other,
}

/// The mark of a write: its field `X-Hub-Mark`.
#[derive(Clone, Copy, Debug, PartialEq, Eq)]
pub enum MarkField {
    /// There is no such field.
    Nothing,
    /// The number of the write, from 1.
    Number(u64),
    /// The field is no such number.
    Bad,
}

/// The number of an exchange, which its reply carries back in `X-Hub-Exchange`.
#[derive(Clone, Copy, Debug, PartialEq, Eq)]
pub struct Echo {
    /// The consumer's run, from 1.
    pub run: u64,
    /// The place of the exchange in its run, from 1.
    pub count: u64,
}

/// A request of HTTP, as far as the hub looks at one.
#[derive(Drop)]
pub struct Request {
    pub verb: Verb,
    /// The target before its first question mark.
    pub path: Text,
    /// The target behind its first question mark.
    pub query: Text,
    /// The bearer token, where the request has a good one.
    pub token: Option<Token>,
    pub mark: MarkField,
    /// The number of the exchange, where the request has one.
    pub echo: Option<Echo>,
    /// No request follows over the same stream.
    pub close: bool,
    pub body: Bytes,
}
