//! Replies.

ghost use Rattle.std.specs.Prelude.{◌≡◌};
ghost use Rattle.status_info.specs.Failing.{failing};

use crate::{Cause, Echo};
use roster_base::{Items, Text};
use std::alloc::Global;

/// Where a link of a page leads.
#[derive(Clone, Copy, Debug, PartialEq, Eq)]
pub enum Rel {
    Next,
    Prev,
    First,
    Last,
}

/// A link to another page of the same collection.
#[derive(Drop)]
pub struct LinkItem {
    pub rel: Rel,
    /// Path and query of the page.
    pub target: Text,
}

/// What a query asked for and was passed over.
#[derive(Clone, Copy, Debug, PartialEq, Eq)]
pub struct Warnings {
    /// The field to sort by isn't known.
    pub sort: bool,
    /// A field to be shown isn't known.
    pub selection: bool,
}

/// A reply. Its status, and its body where that is a status body, follow from the cause.
#[derive(Drop)]
pub struct Reply {
    /// Why the reply is what it is.
    pub cause: Cause,
    /// The body of a 200; any other cause has its own.
    pub body: Text,
    /// The number of rows of the whole collection.
    pub total: Option<u64>,
    /// The other pages of the same list.
    pub links: Items<LinkItem>,
    pub warnings: Warnings,
    /// The path of a refused method takes writes.
    pub allow_write: bool,
    /// The version that was read, or else the newest one: of a write, that when it was judged.
    pub version: Option<u64>,
    /// The oldest version that the caller may ask for.
    pub oldest: Option<u64>,
    /// The mark of the write that is answered.
    pub mark: Option<u64>,
    /// The number of the exchange, as the request gave it.
    pub echo: Option<Echo>,
    /// No reply follows over the same stream.
    pub close: bool,
    /// The reply answers a HEAD, so it has no body.
    pub headless: bool,
}

impl Reply {
    /// The reply that says its cause and no more; no memory is taken.
    pub fn failing(alloc: Global, cause: Cause, echo: Option<Echo>, close: bool) -> Reply
        ensures { result ≡ failing cause echo close }
    {
        Reply {
            cause,
            body: Text::from_string(String::new(alloc)),
            total: None,
            links: Items::new(alloc),
            warnings: Warnings {
                sort: false,
                selection: false,
            },
            allow_write: false,
            version: None,
            oldest: None,
            mark: None,
            echo,
            close,
            headless: false,
        }
    }
}
