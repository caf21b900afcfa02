//! What the own reply means for the entry that was sent.

ghost use Rattle.std.specs.Prelude.{◌≡◌};
ghost use Rattle.consumer_outbox.specs.Verdicts.{answered_verdict, marked_verdict, unmarked_verdict, verdict_of};

use http_wire::WireReply;

/// What the own reply makes of the entry that was sent.
#[derive(Clone, Copy)]
pub enum Verdict {
    /// The hub has judged the write, with this status and at this version.
    Settles { status: u16, version: u64 },
    /// The hub knows no such token.
    UnknownToken,
    /// The token's grant doesn't open the write.
    NoScope,
    /// The hub has taken another write under the mark.
    MarkTaken,
    /// No hub gives this reply.
    BadReply,
    /// The keeper of the hub failed.
    HubFault,
    /// The hub wanted memory.
    HubNoMemory,
}

// A reply that shows no mark.
fn judge_unmarked(status: u16) -> Verdict
    ensures { result ≡ unmarked_verdict status }
{
    match status {
        403 => Verdict::NoScope,
        422 => Verdict::MarkTaken,
        _ => Verdict::BadReply,
    }
}

// A reply that shows the entry's mark.
fn judge_marked(status: u16, version: Option<u64>) -> Verdict
    ensures { result ≡ marked_verdict status version }
{
    match version {
        None => Verdict::BadReply,
        Some(version) => Verdict::Settles { status, version },
    }
}

// A reply that neither the token, the hub's keeper nor its memory stood in the way of.
fn judge_answered(number: u64, status: u16, mark: Option<u64>, version: Option<u64>) -> Verdict
    ensures { result ≡ answered_verdict number status mark version }
{
    match mark {
        None => judge_unmarked(status),
        Some(mark) => {
            if mark == number {
                judge_marked(status, version)
            } else {
                Verdict::BadReply
            }
        }
    }
}

/// The verdict of the own reply on the entry of this number. Only a reply that shows the entry's mark settles it.
pub fn judge(number: u64, reply: &WireReply) -> Verdict
    ensures { result ≡ verdict_of number reply.now }
{
    match reply.status {
        401 => Verdict::UnknownToken,
        500 => Verdict::HubFault,
        503 => Verdict::HubNoMemory,
        status => judge_answered(number, status, reply.mark, reply.version),
    }
}
