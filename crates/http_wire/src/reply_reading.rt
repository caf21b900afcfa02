//! One reply read from its bytes, for the consumer.

ghost use Rattle.std.specs.Prelude.{◌≡◌, ◌⊎◌, ℕ, List, Result, Ok, Err, All, length, option_map};
ghost use Rattle.httparse.specs.Spans.{IsHeaderWithin};
ghost use Rattle.status_info.specs.declared.reply.Reply.{Reply};
ghost use Rattle.http_wire.specs.Replies.{reply_text};
ghost use Rattle.http_wire.specs.Seen.{CanRead, seen_of};
ghost use Rattle.http_wire.specs.declared.reply_reading.WireReply.{WireReply};
ghost use Rattle.http_wire.specs.declared.fault.WireFault.{WireFault};
ghost use Rattle.http_wire.specs.declared.fault.WireFault.TheVariants as fault;
ghost use Rattle.http_wire.specs.Answers.{FindsAnswer, IsReplyText, ReadsReply, TellsLength, answered, count_at};
ghost use Rattle.http_wire.specs.Answers.{missing_length, number_at, part_fault, parts_in, body_length};

use crate::fault::WireFault;
use crate::front::{MAX_FIELDS, head_fault};
use crate::head::{copy_of, echo_in, length_of_body, value};
use crate::reader::fault_at_end;
use crate::text::{count, number};
use httparse::Status;
use httparse::spans::{EMPTY_HEADER_SPAN, HeaderSpan, ResponseSpans, parse_response};
use roster_base::{Bytes, LAST_NUMBER};
use status_info::Echo;
use std::alloc::Global;

/// The most bytes of a reply's head.
pub const MAX_REPLY_HEAD: usize = 262_144;

/// The most bytes of a reply's body.
pub const MAX_REPLY_BODY: u64 = 83_886_080;

/// A reply as the consumer sees it. A field whose value is no number of its range counts as absent.
#[derive(Drop)]
pub struct WireReply {
    /// The three digits of the status line.
    pub status: u16,
    /// `X-Total-Count`, the number of rows of the whole collection.
    pub total: Option<u64>,
    /// `X-Hub-Version`, the version that was read, or else the newest one: of a write, that when it was judged.
    pub version: Option<u64>,
    /// `X-Hub-Oldest`, the oldest version that the caller may ask for.
    pub oldest: Option<u64>,
    /// `X-Hub-Mark`, the mark of the write that is answered.
    pub mark: Option<u64>,
    /// `X-Hub-Exchange`, the number of the exchange.
    pub echo: Option<Echo>,
    /// The bytes behind the head.
    pub body: Bytes,
}

// The number of a value, from 0 on.
fn count_in(value: Option<&[u8]>) -> Option<u64>
    ensures { result ≡ count_at (option_map (λ v. v.now) value.entry) }
{
    count(value?, LAST_NUMBER)
}

// The number of a value, from 1 on.
fn number_in(value: Option<&[u8]>) -> Option<u64>
    ensures { result ≡ number_at (option_map (λ v. v.now) value.entry) }
{
    number(value?, LAST_NUMBER)
}

// The length of the body where none is stated.
fn length_if_missing(status: u16) -> Option<u64>
    ensures { result ≡ missing_length status }
{
    if status == 204 { Some(0) } else { None }
}

// The reply with this head and this body.
#[tactic(auto, unfolding(crate::specs::Answers::answered))]
fn reply_of(bytes: &[u8], status: u16, fields: &[HeaderSpan], body: Bytes) -> WireReply
    requires { All (IsHeaderWithin (length bytes.now)) fields.now }
    ensures { result ≡ answered (parts_in bytes.now status fields.now) body }
{
    WireReply {
        status,
        total: count_in(value(bytes, fields, b"x-total-count")),
        version: count_in(value(bytes, fields, b"x-hub-version")),
        oldest: count_in(value(bytes, fields, b"x-hub-oldest")),
        mark: number_in(value(bytes, fields, b"x-hub-mark")),
        echo: echo_in(value(bytes, fields, b"x-hub-exchange")),
        body,
    }
}

// The length of the body, as a head states it.
fn stated_body_length(front: &[u8], status: u16, fields: &[HeaderSpan]) -> Result<u64, WireFault>
    requires { All (IsHeaderWithin (length front.now)) fields.now }
    ensures { result ≡ body_length (parts_in front.now status fields.now) }
{
    length_of_body(front, fields, MAX_REPLY_BODY, length_if_missing(status))
}

// The reply whose head was found at the front of the bytes.
fn behind_head(
    alloc: Global,
    bytes: &[u8],
    front: &[u8],
    spans: ResponseSpans,
    fields: &[HeaderSpan],
) -> Result<WireReply, WireFault>
    requires { FindsAnswer bytes.now front.now spans fields.now }
    ensures { ReadsReply bytes.now result }
{
    let length = stated_body_length(front, spans.code, fields)? as usize;
    let after = &bytes[spans.len..];
    if after.len() < length {
        return Err(WireFault::Cut);
    }
    if after.len() > length {
        return Err(WireFault::Length);
    }
    let body = copy_of(alloc, after)?;
    Ok(reply_of(front, spans.code, fields, body))
}

// The fault of bytes in which a head has begun and doesn't end.
fn fault_of_part(bytes: &[u8]) -> WireFault
    ensures { result ≡ part_fault bytes.now }
{
    if bytes.len() < MAX_REPLY_HEAD {
        fault_at_end(bytes)
    } else {
        WireFault::HeadTooLong
    }
}

/// The one reply that the bytes are, with nothing behind it.
///
/// `End`: there are no bytes. `Cut`: they end inside a reply. `Length`: the length can't be read, is missing for
/// another status than 204, or more bytes stand behind the body. The other faults are those of a request, with limits
/// of their own.
pub fn parse_reply(alloc: Global, bytes: &[u8]) -> Result<WireReply, WireFault>
    ensures { ReadsReply bytes.now result }
{
    let front = &bytes[..bytes.len().min(MAX_REPLY_HEAD)];
    let mut headers = [EMPTY_HEADER_SPAN; MAX_FIELDS];
    match parse_response(front, &mut headers) {
        Ok(Status::Complete(spans)) => {
            behind_head(alloc, bytes, front, spans, &headers[..spans.headers])
        }
        Ok(Status::Partial) => Err(fault_of_part(bytes)),
        Err(error) => Err(head_fault(error)),
    }
}

/// How many bytes the reply has that begins with these. `None`: its head isn't all there. A fault: whatever follows,
/// they begin no reply, for the reason that `parse_reply` gives too.
pub fn reply_length(bytes: &[u8]) -> Result<Option<u64>, WireFault>
    ensures { TellsLength bytes.now result }
{
    let front = &bytes[..bytes.len().min(MAX_REPLY_HEAD)];
    let mut headers = [EMPTY_HEADER_SPAN; MAX_FIELDS];
    match parse_response(front, &mut headers) {
        Ok(Status::Complete(spans)) => {
            let length = stated_body_length(front, spans.code, &headers[..spans.headers])?;
            Ok(Some(spans.len as u64 + length))
        }
        Ok(Status::Partial) => {
            if bytes.len() < MAX_REPLY_HEAD {
                Ok(None)
            } else {
                Err(WireFault::HeadTooLong)
            }
        }
        Err(error) => Err(head_fault(error)),
    }
}

/// A reply in its limits is read back from its text, and a text is of one reply: `parse_reply` answers it, where memory
/// is left.
pub fn written_is_read()
    ensures read { (r : Reply) → CanRead r → IsReplyText (reply_text r) (seen_of r) }
    ensures one { (bytes : List ℕ) (x y : WireReply) → IsReplyText bytes x → IsReplyText bytes y → x ≡ y }
    ensures answer { (r : Reply) (answer : Result WireReply WireFault) → CanRead r → ReadsReply (reply_text r) answer
        → (answer ≡ Ok (seen_of r)) ⊎ (answer ≡ Err fault.NoMemory) }
{}
