//! What a server tells whoever runs it.

use hub_shared::FeedEnd;
use roster_texts::Name;

/// Is told what came of each feed. No promise rests on it.
pub trait Notices {
    fn fed(&self, feed: &Name, end: FeedEnd);
}

/// Tells nobody.
#[derive(Clone, Copy, Debug)]
pub struct NoNotices;

impl Notices for NoNotices {
    fn fed(&self, _feed: &Name, _end: FeedEnd) {}
}
