//! The text of a reply, written piece by piece.

ghost use Rattle.std.specs.Prelude.{◌≡◌, length};
ghost use Rattle.http.specs.StatusCode.{IsStatusCode};
ghost use Rattle.roster_base.specs.Faults.{HasCause};
ghost use Rattle.outside_ports.specs.Written.{Writes};
ghost use Rattle.status_info.specs.Bodies.{status_body};
ghost use Rattle.http_wire.specs.Replies as spec;

use crate::pieces::{write_echo_line, write_number_line, write_pieces};
use http::StatusCode;
use itoa::Buffer;
use outside_ports::{Failed, Sink};
use status_info::{Cause, LinkItem, Rel, Reply, Warnings};

// The phrase behind the status in the status line.
#[tactic(auto, unfolding(crate::specs::Replies::phrase_of))]
fn phrase(status: u16) -> &'static str
    requires { IsStatusCode status }
    ensures { result.now ≡ spec.phrase_of status }
{
    match StatusCode::from_u16(status) {
        Ok(status) => status.canonical_reason().unwrap_or(""),
        Err(_) => "",
    }
}

// The field with the type of the body, which a 204 lacks.
#[tactic(auto, unfolding(crate::specs::Replies::type_line))]
fn type_field(cause: Cause) -> &'static str
    ensures { result.now ≡ spec.type_line cause }
{
    if cause.status() == 204 {
        ""
    } else {
        "Content-Type: application/json\r\n"
    }
}

// The field that asks for a token, which a 401 alone has.
#[tactic(auto, unfolding(crate::specs::Replies::challenge_line))]
fn challenge_field(cause: Cause) -> &'static str
    ensures { result.now ≡ spec.challenge_line cause }
{
    if cause.status() == 401 {
        "WWW-Authenticate: Bearer\r\n"
    } else {
        ""
    }
}

// The field with the methods that are allowed, which a 405 alone has.
#[tactic(auto, unfolding(crate::specs::Replies::allow_line))]
fn allow_field(cause: Cause, allow_write: bool) -> &'static str
    ensures { result.now ≡ spec.allow_line cause allow_write }
{
    if cause.status() != 405 {
        ""
    } else if allow_write {
        "Allow: GET, PUT, DELETE\r\n"
    } else {
        "Allow: GET\r\n"
    }
}

// The field with what was passed over, or no text where nothing was.
#[tactic(auto, unfolding(crate::specs::Replies::warning_line))]
fn warning_field(warnings: Warnings) -> &'static str
    ensures { result.now ≡ spec.warning_line warnings }
{
    match (warnings.sort, warnings.selection) {
        (true, true) => "X-Hub-Warning: invalid_sort_field, invalid_selection_field\r\n",
        (true, false) => "X-Hub-Warning: invalid_sort_field\r\n",
        (false, true) => "X-Hub-Warning: invalid_selection_field\r\n",
        (false, false) => "",
    }
}

// The field that closes the stream, or no text where it stays open.
#[tactic(auto, unfolding(crate::specs::Replies::close_line))]
fn close_field(close: bool) -> &'static str
    ensures { result.now ≡ spec.close_line close }
{
    if close { "Connection: close\r\n" } else { "" }
}

// The word for a page in a link.
fn word_of_rel<'a>(rel: Rel) -> &'a str
    ensures { result.now ≡ spec.rel_word rel }
{
    match rel {
        Rel::Next => "next",
        Rel::Prev => "prev",
        Rel::First => "first",
        Rel::Last => "last",
    }
}

// The status line, and the fields that follow from the cause: the type of the body, the challenge and the allowed
// methods.
#[tactic(auto, unfolding(crate::specs::Replies::start_text))]
fn write_start<W: Sink>(sink: &mut W, cause: Cause, allow_write: bool) -> Result<(), Failed>
    ensures bytes { Writes (W.written sink.old) (W.written sink.new) (spec.start_text cause allow_write) result }
    ensures cause { HasCause (W.faults sink.old) (W.faults sink.new) result }
{
    let mut digits = Buffer::new();
    let status = cause.status();
    write_pieces(
        sink,
        &[
            "HTTP/1.1 ",
            digits.format(status),
            " ",
            phrase(status),
            "\r\n",
            type_field(cause),
            challenge_field(cause),
            allow_field(cause, allow_write),
        ],
    )
}

// The target of a link, and which page it is.
#[tactic(auto, unfolding(crate::specs::Replies::target_text))]
fn write_target<W: Sink>(sink: &mut W, target: &str, rel: Rel) -> Result<(), Failed>
    ensures bytes { Writes (W.written sink.old) (W.written sink.new) (spec.target_text target.now rel) result }
    ensures cause { HasCause (W.faults sink.old) (W.faults sink.new) result }
{
    write_pieces(sink, &[target, ">; rel=\"", word_of_rel(rel), "\""])
}

// A link behind its opening bracket.
fn write_link<W: Sink>(sink: &mut W, link: &LinkItem) -> Result<(), Failed>
    ensures bytes { Writes (W.written sink.old) (W.written sink.new) (spec.link_text link.now) result }
    ensures cause { HasCause (W.faults sink.old) (W.faults sink.new) result }
{
    write_target(sink, link.target.as_str(), link.rel)
}

// A link behind another one in the field `Link`.
fn write_next_link<W: Sink>(sink: &mut W, link: &LinkItem) -> Result<(), Failed>
    ensures bytes { Writes (W.written sink.old) (W.written sink.new) (spec.further_link link.now) result }
    ensures cause { HasCause (W.faults sink.old) (W.faults sink.new) result }
{
    sink.write_all(b", <")?;
    write_link(sink, link)
}

// The links behind the first.
fn write_more_links<W: Sink>(sink: &mut W, links: &[LinkItem]) -> Result<(), Failed>
    ensures bytes { Writes (W.written sink.old) (W.written sink.new) (spec.more_links links.now) result }
    ensures cause { HasCause (W.faults sink.old) (W.faults sink.new) result }
{
    for link in links {
        write_next_link(sink, link)?;
    }
    Ok(())
}

// The field `Link` with one link and those behind it.
fn write_some_links<W: Sink>(
    sink: &mut W,
    first: &LinkItem,
    rest: &[LinkItem],
) -> Result<(), Failed>
    ensures bytes { Writes (W.written sink.old) (W.written sink.new) (spec.some_links first.now rest.now) result }
    ensures cause { HasCause (W.faults sink.old) (W.faults sink.new) result }
{
    sink.write_all(b"Link: <")?;
    write_link(sink, first)?;
    write_more_links(sink, rest)?;
    sink.write_all(b"\r\n")
}

// The field `Link`, where there are links.
fn write_links<W: Sink>(sink: &mut W, links: &[LinkItem]) -> Result<(), Failed>
    ensures bytes { Writes (W.written sink.old) (W.written sink.new) (spec.links_line links.now) result }
    ensures cause { HasCause (W.faults sink.old) (W.faults sink.new) result }
{
    match links {
        [] => Ok(()),
        [first, rest @ ..] => write_some_links(sink, first, rest),
    }
}

// The status line, and the fields in front of the links.
#[tactic(auto, unfolding(crate::specs::Replies::front_text))]
fn write_front<W: Sink>(sink: &mut W, reply: &Reply) -> Result<(), Failed>
    ensures bytes { Writes (W.written sink.old) (W.written sink.new) (spec.front_text reply.now) result }
    ensures cause { HasCause (W.faults sink.old) (W.faults sink.new) result }
{
    write_start(sink, reply.cause, reply.allow_write)?;
    write_number_line(sink, "X-Total-Count: ", reply.total)
}

// The fields that name a version and a mark.
#[tactic(auto, unfolding(crate::specs::Replies::versions_text))]
fn write_versions<W: Sink>(sink: &mut W, reply: &Reply) -> Result<(), Failed>
    ensures bytes { Writes (W.written sink.old) (W.written sink.new) (spec.versions_text reply.now) result }
    ensures cause { HasCause (W.faults sink.old) (W.faults sink.new) result }
{
    write_number_line(sink, "X-Hub-Version: ", reply.version)?;
    write_number_line(sink, "X-Hub-Oldest: ", reply.oldest)?;
    write_number_line(sink, "X-Hub-Mark: ", reply.mark)
}

// The field that closes the stream, where it does.
fn write_close_line<W: Sink>(sink: &mut W, close: bool) -> Result<(), Failed>
    ensures bytes { Writes (W.written sink.old) (W.written sink.new) (spec.close_line close) result }
    ensures cause { HasCause (W.faults sink.old) (W.faults sink.new) result }
{
    sink.write_all(close_field(close).as_bytes())
}

// The field with what was passed over, where anything was.
fn write_warning_line<W: Sink>(sink: &mut W, warnings: Warnings) -> Result<(), Failed>
    ensures bytes { Writes (W.written sink.old) (W.written sink.new) (spec.warning_line warnings) result }
    ensures cause { HasCause (W.faults sink.old) (W.faults sink.new) result }
{
    sink.write_all(warning_field(warnings).as_bytes())
}

// The field with the length of the body.
fn write_length_line<W: Sink>(sink: &mut W, reply: &Reply) -> Result<(), Failed>
    ensures bytes { Writes (W.written sink.old) (W.written sink.new) (spec.length_line reply.now) result }
    ensures cause { HasCause (W.faults sink.old) (W.faults sink.new) result }
{
    write_number_line(sink, "Content-Length: ", stated_length(reply))
}

// The fields at the end of the head, and the empty line.
#[tactic(auto, unfolding(crate::specs::Replies::end_text))]
fn write_end<W: Sink>(sink: &mut W, reply: &Reply) -> Result<(), Failed>
    ensures bytes { Writes (W.written sink.old) (W.written sink.new) (spec.end_text reply.now) result }
    ensures cause { HasCause (W.faults sink.old) (W.faults sink.new) result }
{
    write_echo_line(sink, reply.echo)?;
    write_close_line(sink, reply.close)?;
    write_length_line(sink, reply)?;
    sink.write_all(b"\r\n")
}

// The length of the body. The head of a 204 has none.
#[tactic(auto, unfolding(crate::specs::Replies::length_of_body))]
fn stated_length(reply: &Reply) -> Option<u64>
    ensures { result ≡ spec.length_of_body reply.now }
{
    if reply.cause.status() == 204 {
        None
    } else {
        Some(body_length(reply) as u64)
    }
}

// How many bytes the body has.
#[tactic(auto, unfolding(crate::specs::Replies::body_text))]
fn body_length(reply: &Reply) -> usize
    ensures { result ≡ length (spec.body_text reply.now) }
{
    if reply.headless {
        return 0;
    }
    match reply.cause.status() {
        200 => reply.body.as_str().len(),
        204 => 0,
        _ => reply.cause.status_body().len(),
    }
}

// The text that tells the cause.
fn write_status_body<W: Sink>(sink: &mut W, cause: Cause) -> Result<(), Failed>
    ensures bytes { Writes (W.written sink.old) (W.written sink.new) (status_body cause) result }
    ensures cause { HasCause (W.faults sink.old) (W.faults sink.new) result }
{
    sink.write_all(cause.status_body().as_bytes())
}

/// Writes the body: what was read, or the text that tells the cause. A 204 and a reply to HEAD have none.
#[tactic(auto, unfolding(crate::specs::Replies::body_text))]
pub(crate) fn write_body<W: Sink>(sink: &mut W, reply: &Reply) -> Result<(), Failed>
    ensures bytes { Writes (W.written sink.old) (W.written sink.new) (spec.body_text reply.now) result }
    ensures cause { HasCause (W.faults sink.old) (W.faults sink.new) result }
{
    if reply.headless {
        return Ok(());
    }
    match reply.cause.status() {
        200 => sink.write_all(reply.body.as_str().as_bytes()),
        204 => Ok(()),
        _ => write_status_body(sink, reply.cause),
    }
}

/// Writes all that stands in front of the body.
pub(crate) fn write_head<W: Sink>(sink: &mut W, reply: &Reply) -> Result<(), Failed>
    ensures bytes { Writes (W.written sink.old) (W.written sink.new) (spec.head_text reply.now) result }
    ensures cause { HasCause (W.faults sink.old) (W.faults sink.new) result }
{
    write_front(sink, reply)?;
    write_links(sink, reply.links.as_slice())?;
    write_warning_line(sink, reply.warnings)?;
    write_versions(sink, reply)?;
    write_end(sink, reply)
}

/// Writes the text of a reply: its head and its body. It takes no memory, and fails where the sink does.
pub fn write_reply<W: Sink>(sink: &mut W, reply: &Reply) -> Result<(), Failed>
    ensures bytes { Writes (W.written sink.old) (W.written sink.new) (spec.reply_text reply.now) result }
    ensures cause { HasCause (W.faults sink.old) (W.faults sink.new) result }
{
    write_head(sink, reply)?;
    write_body(sink, reply)
}
