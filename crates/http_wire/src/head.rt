//! What a request's head says.

ghost use Rattle.std.specs.Prelude.{◌≡◌, ◌==◌, ◌||◌, All, IfOk, IsUtf8, length, map, option_map};
ghost use Rattle.httparse.specs.Spans.{IsHeaderWithin, IsWithin, header_bytes, span_bytes};
ghost use Rattle.http_wire.specs.Texts.{echo_at, token_at};
ghost use Rattle.http_wire.specs.Heads.{allows_length, asked, has_name, is_close, length_of, lengths_are, one_length};
ghost use Rattle.http_wire.specs.Heads.{request_parts_in, value_of};

use crate::fault::WireFault;
use crate::text::{digits, echo, mark, split_target, token, verb};
use httparse::spans::{HeaderSpan, RequestSpans};
use roster_base::{Bytes, NoMemory, Text};
use roster_texts::Token;
use status_info::{Echo, Request};
use std::alloc::Global;

// Whether a field has this name, in any letter case.
fn is_named(bytes: &[u8], header: HeaderSpan, name: &[u8]) -> bool
    requires { IsHeaderWithin (length bytes.now) header }
    ensures { result ≡ has_name name.now (header_bytes bytes.now header) }
{
    header.name.of(bytes).eq_ignore_ascii_case(name)
}

// Whether a field has this number, where it is Content-Length; any other field is let through.
fn allows(bytes: &[u8], header: HeaderSpan, number: u64) -> bool
    requires { IsHeaderWithin (length bytes.now) header }
    ensures { result ≡ allows_length number (header_bytes bytes.now header) }
{
    if !is_named(bytes, header, b"content-length") {
        return true;
    }
    match digits(header.value.of(bytes)) {
        Some(digits) => digits == number,
        None => false,
    }
}

/// The value of the first field of a name, in any letter case.
pub(crate) fn value<'b>(bytes: &'b [u8], headers: &[HeaderSpan], name: &[u8]) -> Option<&'b [u8]>
    requires { All (IsHeaderWithin (length bytes.now)) headers.now }
    ensures { option_map (λ v. v.now) result ≡ value_of name.now (map (header_bytes bytes.now) headers.now) }
{
    for header in headers {
        if is_named(bytes, *header, name) {
            return Some(header.value.of(bytes));
        }
    }
    None
}

// Whether each field Content-Length has this number.
fn lengths_agree(bytes: &[u8], headers: &[HeaderSpan], number: u64) -> bool
    requires { All (IsHeaderWithin (length bytes.now)) headers.now }
    ensures { result ≡ lengths_are number (map (header_bytes bytes.now) headers.now) }
{
    for header in headers {
        if !allows(bytes, *header, number) {
            return false;
        }
    }
    true
}

// The number of the first Content-Length, where each further one has the same.
fn one_number(bytes: &[u8], headers: &[HeaderSpan], first: &[u8]) -> Option<u64>
    requires { All (IsHeaderWithin (length bytes.now)) headers.now }
    ensures { result ≡ one_length (map (header_bytes bytes.now) headers.now) first.now }
{
    let number = digits(first)?;
    if !lengths_agree(bytes, headers, number) {
        return None;
    }
    Some(number)
}

/// The length of a body of at most `most` bytes, as the fields state it; `missing` is the length where they state none.
#[tactic(auto, unfolding(crate::specs::Heads::length_of))]
pub(crate) fn length_of_body(
    bytes: &[u8],
    headers: &[HeaderSpan],
    most: u64,
    missing: Option<u64>,
) -> Result<u64, WireFault>
    requires { All (IsHeaderWithin (length bytes.now)) headers.now }
    ensures { result ≡ length_of most missing (map (header_bytes bytes.now) headers.now) }
{
    let stated = match value(bytes, headers, b"content-length") {
        Some(first) => one_number(bytes, headers, first),
        None => missing,
    };
    let Some(length) = stated else {
        return Err(WireFault::Length);
    };
    if length > most {
        return Err(WireFault::BodyTooLong);
    }
    if value(bytes, headers, b"transfer-encoding").is_some() {
        return Err(WireFault::Chunked);
    }
    Ok(length)
}

/// The echo of a value of `X-Hub-Exchange`.
pub(crate) fn echo_in(value: Option<&[u8]>) -> Option<Echo>
    ensures { result ≡ echo_at (option_map (λ v. v.now) value.entry) }
{
    echo(value?)
}

// The token of a value of `Authorization`.
fn token_in(alloc: Global, value: Option<&[u8]>) -> Result<Option<Token>, NoMemory>
    ensures { IfOk result (λ t. t ≡ token_at (option_map (λ v. v.now) value.entry)) }
{
    match value {
        Some(value) => token(alloc, value),
        None => Ok(None),
    }
}

// Whether a value of `Connection` closes the stream.
fn closes(value: Option<&[u8]>) -> bool
    ensures { result ≡ is_close (option_map (λ v. v.now) value.entry) }
{
    match value {
        Some(word) => word.eq_ignore_ascii_case(b"close"),
        None => false,
    }
}

// Whether the stream ends behind a request.
fn is_last(minor: u8, connection: Option<&[u8]>) -> bool
    ensures { result ≡ (minor == 0 || is_close (option_map (λ v. v.now) connection.entry)) }
{
    minor == 0 || closes(connection)
}

/// A copy of some bytes.
pub(crate) fn copy_of(alloc: Global, bytes: &[u8]) -> Result<Bytes, NoMemory>
    ensures { IfOk result (λ copy. copy ≡ bytes.now) }
{
    Ok(Bytes::from_vec(bytes.to_vec(alloc)?))
}

/// The request with this head and this body.
#[tactic(auto, unfolding(crate::specs::Heads::asked))]
pub(crate) fn request_of(
    alloc: Global,
    bytes: &[u8],
    spans: RequestSpans,
    fields: &[HeaderSpan],
    body: &[u8],
) -> Result<Request, NoMemory>
    requires method { IsWithin (length bytes.now) spans.method }
    requires path { IsWithin (length bytes.now) spans.path }
    requires fields { All (IsHeaderWithin (length bytes.now)) fields.now }
    requires text { IsUtf8 (span_bytes bytes.now spans.path) }
    ensures { IfOk result (λ r. r ≡ asked (request_parts_in bytes.now spans fields.now) body.now) }
{
    let Ok(target) = str::from_utf8(spans.path.of(bytes)) else {
        unreachable!();
    };
    let (path, query) = split_target(target);
    let token = token_in(alloc, value(bytes, fields, b"authorization"))?;
    let path = Text::new(alloc, path)?;
    let query = Text::new(alloc, query)?;
    let body = copy_of(alloc, body)?;
    Ok(Request {
        verb: verb(spans.method.of(bytes)),
        path,
        query,
        token,
        mark: mark(value(bytes, fields, b"x-hub-mark")),
        echo: echo_in(value(bytes, fields, b"x-hub-exchange")),
        close: is_last(spans.version, value(bytes, fields, b"connection")),
        body,
    })
}
