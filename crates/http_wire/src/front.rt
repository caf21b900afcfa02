//! The request at the front of some bytes.

ghost use Rattle.std.specs.Prelude.{◌≡◌};
ghost use Rattle.http_wire.specs.Reading.{FindsHead, IsFront, refusal_of};

use crate::fault::WireFault;
use crate::head::{length_of_body, request_of};
use httparse::spans::{EMPTY_HEADER_SPAN, HeaderSpan, RequestSpans, parse_request};
use httparse::{Error, Status};
use status_info::Request;
use std::alloc::Global;

/// The most bytes of a head.
pub const MAX_HEAD: usize = 16_384;

/// The most fields of a head.
pub const MAX_FIELDS: usize = 64;

/// The most bytes of a body.
pub const MAX_BODY: u64 = 131_072;

// The request whose head was found at the front of some bytes.
fn behind_head(
    alloc: Global,
    bytes: &[u8],
    front: &[u8],
    spans: RequestSpans,
    fields: &[HeaderSpan],
) -> Result<Option<(Request, usize)>, WireFault>
    requires { FindsHead bytes.now front.now spans fields.now }
    ensures { IsFront bytes.now result }
{
    let length = length_of_body(front, fields, MAX_BODY, Some(0))? as usize;
    let after = &bytes[spans.len..];
    if after.len() < length {
        return Ok(None);
    }
    let request = request_of(alloc, front, spans, fields, &after[..length])?;
    Ok(Some((request, spans.len + length)))
}

/// The fault of bytes that the parser refused.
pub(crate) fn head_fault(error: Error) -> WireFault
    ensures { result ≡ refusal_of error }
{
    match error {
        Error::TooManyHeaders => WireFault::HeadTooLong,
        _ => WireFault::Head,
    }
}

/// The request at the front of some bytes, with its length. `None`: it needs more bytes.
pub(crate) fn read_front(alloc: Global, bytes: &[u8]) -> Result<Option<(Request, usize)>, WireFault>
    ensures { IsFront bytes.now result }
{
    let front = &bytes[..bytes.len().min(MAX_HEAD)];
    let mut headers = [EMPTY_HEADER_SPAN; MAX_FIELDS];
    match parse_request(front, &mut headers) {
        Ok(Status::Complete(spans)) => {
            behind_head(alloc, bytes, front, spans, &headers[..spans.headers])
        }
        Ok(Status::Partial) => {
            if bytes.len() < MAX_HEAD {
                Ok(None)
            } else {
                Err(WireFault::HeadTooLong)
            }
        }
        Err(error) => Err(head_fault(error)),
    }
}
