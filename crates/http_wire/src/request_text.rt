//! The text of a request that the consumer sends.

ghost use Rattle.std.specs.Prelude.{List, ℕ, ◌≡◌, ◌++◌, IfOk, OnOk, codes};
ghost use Rattle.roster_base.specs.Faults.{HasCause};
ghost use Rattle.outside_ports.specs.Written.{Writes};
ghost use Rattle.status_info.specs.declared.request.Request.{Request};
ghost use Rattle.http_wire.specs.Reading.{BeginsWith};
ghost use Rattle.http_wire.specs.Replies.{number_line};
ghost use Rattle.http_wire.specs.Sending.{CanSend, mark_number, put_length, path_text, query_mark, query_text};
ghost use Rattle.http_wire.specs.Sending.{request_text, token_line, token_text, verb_text, verb_word};

use crate::growing_text::GrowingText;
use crate::pieces::{write_echo_line, write_number_line, write_pieces};
use outside_ports::{Failed, Sink};
use roster_base::NoMemory;
use roster_texts::Token;
use status_info::{MarkField, Request, Verb};
use std::alloc::Global;

// The word of a verb in the request line.
fn word_of_verb(verb: Verb) -> &'static str
    ensures { result.now ≡ verb_word verb }
{
    match verb {
        Verb::Get => "GET",
        Verb::Put => "PUT",
        Verb::Delete => "DELETE",
        Verb::Head => "HEAD",
        Verb::Other => "OTHER",
    }
}

// The number of a mark, where it has one.
fn number_of_mark(mark: MarkField) -> Option<u64>
    ensures { result ≡ mark_number mark }
{
    match mark {
        MarkField::Number(number) => Some(number),
        MarkField::Nothing | MarkField::Bad => None,
    }
}

// The length of a body, which a PUT alone states.
fn length_of_put(verb: Verb, body: &[u8]) -> Option<u64>
    ensures { result ≡ put_length verb body.now }
{
    match verb {
        Verb::Put => Some(body.len() as u64),
        Verb::Get | Verb::Delete | Verb::Head | Verb::Other => None,
    }
}

// The question mark in front of a query that isn't empty.
fn mark_of_query<'a>(query: &str) -> &'a str
    ensures { result.now ≡ query_mark query.now }
{
    if query.is_empty() { "" } else { "?" }
}

// The verb, and the space behind it.
#[tactic(auto, unfolding(crate::specs::Sending::verb_text))]
fn write_verb<W: Sink>(sink: &mut W, verb: Verb) -> Result<(), Failed>
    ensures bytes { Writes (W.written sink.old) (W.written sink.new) (verb_text verb) result }
    ensures cause { HasCause (W.faults sink.old) (W.faults sink.new) result }
{
    write_pieces(sink, &[word_of_verb(verb), " "])
}

// The path, and what stands in front of the query.
#[tactic(auto, unfolding(crate::specs::Sending::path_text))]
fn write_path<W: Sink>(sink: &mut W, path: &str, query: &str) -> Result<(), Failed>
    ensures bytes { Writes (W.written sink.old) (W.written sink.new) (path_text path.now query.now) result }
    ensures cause { HasCause (W.faults sink.old) (W.faults sink.new) result }
{
    write_pieces(sink, &[path, mark_of_query(query)])
}

// The query, the rest of its line, and the field of the host.
#[tactic(auto, unfolding(crate::specs::Sending::query_text))]
fn write_query<W: Sink>(sink: &mut W, query: &str) -> Result<(), Failed>
    ensures bytes { Writes (W.written sink.old) (W.written sink.new) (query_text query.now) result }
    ensures cause { HasCause (W.faults sink.old) (W.faults sink.new) result }
{
    write_pieces(sink, &[query, " HTTP/1.1\r\nHost: hub\r\n"])
}

// The field with a token.
#[tactic(auto, unfolding(crate::specs::Sending::token_text))]
fn write_token<W: Sink>(sink: &mut W, token: &str) -> Result<(), Failed>
    ensures bytes { Writes (W.written sink.old) (W.written sink.new) (token_text token.now) result }
    ensures cause { HasCause (W.faults sink.old) (W.faults sink.new) result }
{
    write_pieces(sink, &["Authorization: Bearer ", token, "\r\n"])
}

// The field with the token, where there is one.
fn write_token_line<W: Sink>(sink: &mut W, token: &Option<Token>) -> Result<(), Failed>
    ensures bytes { Writes (W.written sink.old) (W.written sink.new) (token_line token.now) result }
    ensures cause { HasCause (W.faults sink.old) (W.faults sink.new) result }
{
    match token {
        Some(token) => write_token(sink, token.as_str()),
        None => Ok(()),
    }
}

// The field with the mark, where there is one.
fn write_mark<W: Sink>(sink: &mut W, mark: MarkField) -> Result<(), Failed>
    ensures bytes { Writes (W.written sink.old) (W.written sink.new) (number_line (codes "X-Hub-Mark: ") (mark_number mark)) result }
    ensures cause { HasCause (W.faults sink.old) (W.faults sink.new) result }
{
    write_number_line(sink, "X-Hub-Mark: ", number_of_mark(mark))
}

// The field with the length of the body, which a PUT alone has.
fn write_put_length<W: Sink>(sink: &mut W, verb: Verb, body: &[u8]) -> Result<(), Failed>
    ensures bytes { Writes (W.written sink.old) (W.written sink.new) (number_line (codes "Content-Length: ") (put_length verb body.now)) result }
    ensures cause { HasCause (W.faults sink.old) (W.faults sink.new) result }
{
    write_number_line(sink, "Content-Length: ", length_of_put(verb, body))
}

// Writes the whole text of a request.
fn send(text: &mut GrowingText, request: &Request) -> Result<(), Failed>
    ensures { OnOk result (text.new.bytes.items ≡ text.old.bytes.items ++ request_text request.now) }
{
    write_verb(text, request.verb)?;
    write_path(text, request.path.as_str(), request.query.as_str())?;
    write_query(text, request.query.as_str())?;
    write_token_line(text, &request.token)?;
    write_mark(text, request.mark)?;
    write_echo_line(text, request.echo)?;
    write_put_length(text, request.verb, request.body.as_slice())?;
    text.write_all(b"\r\n")?;
    text.write_all(request.body.as_slice())?;
    Ok(())
}

/// The text of a request as the consumer sends it.
pub fn write_request(alloc: Global, request: &Request) -> Result<Vec<u8>, NoMemory>
    ensures { IfOk result (λ text. text.items ≡ request_text request.now) }
{
    let mut text = GrowingText::new(alloc);
    match send(&mut text, request) {
        Ok(()) => Ok(text.bytes),
        Err(Failed) => Err(NoMemory),
    }
}

/// A request that may be sent is read as the same request, whatever follows its text.
pub fn sent_is_read()
    ensures { (r : Request) (more : List ℕ) → CanSend r → BeginsWith (request_text r ++ more) r more }
{}
