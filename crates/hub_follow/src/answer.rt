//! What is followed, and how that ends.

ghost use Rattle.std.specs.Prelude.{◌≡◌};
ghost use Rattle.hub_follow.specs.Ends.{after_cascade, answer_of_miss, end_of_delta, end_of_sync, lacks_base};

use consumer_deltas::DeltaAnswer;
use exchange_link::SyncAnswer;
use hub_cascade::CascadeError;
use hub_core::Published;
use roster_texts::{Moment, Name, Token};

/// What is followed, and as what: the token under which another hub is asked, in pages of so many rows or entries, each
/// request tried so often; and the feed whose rows are made those of the copy, at a moment.
#[derive(Clone, Copy)]
pub struct FollowTask<'a> {
    pub token: &'a Token,
    pub limit: u32,
    pub tries: u32,
    pub feed: &'a Name,
    pub at: Moment,
}

/// How following ended.
#[derive(Drop)]
pub enum FollowAnswer {
    /// The copy holds this version, whole, and was cascaded.
    Done { version: u64, published: Published },
    /// A whole synchronisation wasn't complete: nothing was cascaded.
    Sync(SyncAnswer),
    /// An incremental synchronisation wasn't complete: nothing was cascaded.
    Delta(DeltaAnswer),
    /// The copy holds this version, whole, and its cascade made nothing, or it isn't known what it made.
    Cascade { version: u64, error: CascadeError },
}

/// The synchronisation that wasn't complete, with its answer.
#[derive(Clone, Copy)]
pub enum Missed {
    /// The whole one, made where there was no base.
    Sync(SyncAnswer),
    /// The incremental one.
    Delta(DeltaAnswer),
}

/// Whether there is nothing from which the differences could be asked for.
pub fn lacks_base(answer: DeltaAnswer) -> bool
    ensures { result ≡ lacks_base answer }
{
    matches!(answer, DeltaAnswer::NoBase | DeltaAnswer::BaseGone { .. })
}

/// The version that a whole synchronisation brought.
pub fn end_of_sync(answer: SyncAnswer) -> Result<u64, Missed>
    ensures { result ≡ end_of_sync answer }
{
    match answer {
        SyncAnswer::Complete { version } => Ok(version),
        _ => Err(Missed::Sync(answer)),
    }
}

/// The version that an incremental synchronisation brought.
pub fn end_of_delta(answer: DeltaAnswer) -> Result<u64, Missed>
    ensures { result ≡ end_of_delta answer }
{
    match answer {
        DeltaAnswer::Ended {
            answer: SyncAnswer::Complete { version },
        } => Ok(version),
        _ => Err(Missed::Delta(answer)),
    }
}

/// The answer where nothing was cascaded.
pub fn answer_of_miss(missed: Missed) -> FollowAnswer
    ensures { result ≡ answer_of_miss missed }
{
    match missed {
        Missed::Sync(answer) => FollowAnswer::Sync(answer),
        Missed::Delta(answer) => FollowAnswer::Delta(answer),
    }
}

/// The answer behind a cascade of a version that the copy holds.
pub fn after_cascade(version: u64, made: Result<Published, CascadeError>) -> FollowAnswer
    ensures { result ≡ after_cascade version made }
{
    match made {
        Ok(published) => FollowAnswer::Done { version, published },
        Err(error) => FollowAnswer::Cascade { version, error },
    }
}
