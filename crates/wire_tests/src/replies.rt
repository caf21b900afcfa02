//! Replies as the hub writes them, and as the consumer reads them.

use http_wire::{WireFault, WireReply, parse_reply, reply_length, send_reply, write_reply};
use outside_ports::MemSink;
use roster_base::{Items, Text};
use status_info::{Cause, Echo, LinkItem, Rel, Reply};
use std::alloc::Global;
use std::process::Abort;
use std::test::Fail;

fn assert_reply(rt: &impl Abort, alloc: Global, reply: &Reply, want: &str) -> Result<(), Fail> {
    let mut sink = MemSink::new(alloc, 1_000, Vec::new(alloc))?;
    let is_written = write_reply(&mut sink, reply).is_ok();
    let bytes = str::from_utf8(sink.written());
    assert_eq!(rt; (is_written, bytes), (true, Ok(want)));
    Ok(())
}

static LINKS: [(Rel, &str); 2] = [(Rel::Next, "/x?offset=1"), (Rel::First, "/x?offset=0")];

fn links_of(alloc: Global) -> Result<Items<LinkItem>, Fail> {
    let mut links = Items::new(alloc);
    for (rel, target) in &LINKS {
        let target = Text::new(alloc, target)?;
        links.push(LinkItem { rel: *rel, target })?;
    }
    Ok(links)
}

fn page(alloc: Global, links: Items<LinkItem>, body: Text) -> Reply {
    let mut page = Reply::failing(alloc, Cause::Done, Some(Echo { run: 1, count: 20 }), true);
    page.version = Some(2);
    page.total = Some(2);
    page.links = links;
    page.warnings.sort = true;
    page.body = body;
    page
}

// For HEAD it has no body.
#[test]
fn a_page_has_its_bytes(rt: HostRuntime) -> Result<(), Fail> {
    let alloc = rt.alloc();
    let body = Text::new(alloc, "{}")?;
    let mut page = page(alloc, links_of(alloc)?, body);
    let want =
        "HTTP/1.1 200 OK\r\nContent-Type: application/json\r\nX-Total-Count: 2\r\nLink: </x?offset=1>; rel=\"next\", </x?offset=0>; rel=\"first\"\r\nX-Hub-Warning: invalid_sort_field\r\nX-Hub-Version: 2\r\nX-Hub-Exchange: 1.20\r\nConnection: close\r\nContent-Length: 2\r\n\r\n{}";
    assert_reply(&rt, alloc, &page, want)?;
    page.headless = true;
    let want =
        "HTTP/1.1 200 OK\r\nContent-Type: application/json\r\nX-Total-Count: 2\r\nLink: </x?offset=1>; rel=\"next\", </x?offset=0>; rel=\"first\"\r\nX-Hub-Warning: invalid_sort_field\r\nX-Hub-Version: 2\r\nX-Hub-Exchange: 1.20\r\nConnection: close\r\nContent-Length: 0\r\n\r\n";
    assert_reply(&rt, alloc, &page, want)
}

// Causes with version and mark, and the bytes of such replies.
static REPLIES: [(Cause, Option<u64>, Option<u64>, &str); 3] = [
    (
        Cause::NoSuchObject,
        Some(2),
        None,
        "HTTP/1.1 404 Not Found\r\nContent-Type: application/json\r\nX-Hub-Version: 2\r\nContent-Length: 122\r\n\r\n{\"imsx_codeMajor\":\"failure\",\"imsx_codeMinor\":\"unknown_object\",\"imsx_description\":\"no such object\",\"imsx_severity\":\"error\"}",
    ),
    (
        Cause::NoKnownToken,
        None,
        None,
        "HTTP/1.1 401 Unauthorized\r\nContent-Type: application/json\r\nWWW-Authenticate: Bearer\r\nContent-Length: 120\r\n\r\n{\"imsx_codeMajor\":\"failure\",\"imsx_codeMinor\":\"unauthorized\",\"imsx_description\":\"no known token\",\"imsx_severity\":\"error\"}",
    ),
    (
        Cause::Deleted,
        Some(3),
        Some(7),
        "HTTP/1.1 204 No Content\r\nX-Hub-Version: 3\r\nX-Hub-Mark: 7\r\n\r\n",
    ),
];

#[test]
fn replies_of_a_cause_have_their_bytes(rt: HostRuntime) -> Result<(), Fail> {
    let alloc = rt.alloc();
    for (cause, version, mark, want) in &REPLIES {
        let mut reply = Reply::failing(alloc, *cause, None, false);
        reply.version = *version;
        reply.mark = *mark;
        assert_reply(&rt, alloc, &reply, want)?;
    }
    Ok(())
}

fn is_page(reply: &WireReply) -> bool {
    reply.status == 200
        && reply.total == Some(0)
        && reply.version == Some(7)
        && reply.oldest.is_none()
        && reply.mark == Some(3)
        && reply.echo == Some(Echo { run: 1, count: 20 })
        && reply.body.as_slice() == b"{}".as_slice()
}

#[test]
fn a_reply_is_read(rt: HostRuntime) {
    let text =
        "HTTP/1.1 200 OK\r\nx-total-COUNT: 0\r\nX-Hub-Version: 7\r\nX-Hub-Oldest: 07\r\nX-Hub-Mark: 3\r\nX-Hub-Exchange: 1.20\r\nContent-Length: 2\r\n\r\n{}";
    let is_read = match parse_reply(rt.alloc(), text.as_bytes()) {
        Ok(reply) => is_page(&reply),
        Err(_) => false,
    };
    assert!(rt; is_read);
}

// Texts, and why they are no reply.
static ANSWERS: [(&str, Option<WireFault>); 9] = [
    ("HTTP/1.1 204 No Content\r\n\r\n", None),
    ("", Some(WireFault::End)),
    ("HTTP/1.1 200 OK\r\n", Some(WireFault::Cut)),
    (
        "HTTP/1.1 200 OK\r\nContent-Length: 2\r\n\r\n{",
        Some(WireFault::Cut),
    ),
    (
        "HTTP/1.1 200 OK\r\nContent-Length: 2\r\n\r\n{} ",
        Some(WireFault::Length),
    ),
    ("HTTP/1.1 200 OK\r\n\r\n", Some(WireFault::Length)),
    ("HTTP/1.1 20 OK\r\n\r\n", Some(WireFault::Head)),
    (
        "HTTP/1.1 204 No Content\r\nTransfer-Encoding: chunked\r\n\r\n",
        Some(WireFault::Chunked),
    ),
    (
        "HTTP/1.1 200 OK\r\nContent-Length: 83886081\r\n\r\n",
        Some(WireFault::BodyTooLong),
    ),
];

#[test]
fn bad_replies_are_refused(rt: HostRuntime) {
    for (text, want) in &ANSWERS {
        let fault = parse_reply(rt.alloc(), text.as_bytes()).err();
        assert_eq!(rt; fault, *want, "{text}");
    }
}

// Bytes with which a reply may begin, and how many bytes it has, where its head is there, or why there is none.
static BEGINNINGS: [(&str, Option<u64>, Option<WireFault>); 9] = [
    ("", None, None),
    ("HTTP/1.1 200 OK\r\nContent-Length: 2\r\n", None, None),
    (
        "HTTP/1.1 200 OK\r\nContent-Length: 2\r\n\r\n",
        Some(40),
        None,
    ),
    (
        "HTTP/1.1 200 OK\r\nContent-Length: 2\r\n\r\n{}HTTP/1.1",
        Some(40),
        None,
    ),
    ("HTTP/1.1 204 No Content\r\n\r\n", Some(27), None),
    ("HTTP/1.1 200 OK\r\n\r\n", None, Some(WireFault::Length)),
    ("SSH-2.0", None, Some(WireFault::Head)),
    (
        "HTTP/1.1 204 No Content\r\nTransfer-Encoding: chunked\r\n\r\n",
        None,
        Some(WireFault::Chunked),
    ),
    (
        "HTTP/1.1 200 OK\r\nContent-Length: 83886081\r\n\r\n",
        None,
        Some(WireFault::BodyTooLong),
    ),
];

#[test]
fn a_reply_tells_its_length(rt: HostRuntime) {
    for (text, length, fault) in &BEGINNINGS {
        let told = match reply_length(text.as_bytes()) {
            Ok(told) => (told, None),
            Err(fault) => (None, Some(fault)),
        };
        assert_eq!(rt; told, (*length, *fault), "{text}");
    }
}

// What is sent of a reply with a body of so many bytes where the call with that number fails, and whether it was made.
fn sent(alloc: Global, length: usize, failing: u64) -> Result<(bool, usize), Fail> {
    let body = Text::from_string("x".repeat(alloc, length)?);
    let mut sink = MemSink::new(alloc, 100_000, vec![in alloc; failing]?)?;
    let reply = page(alloc, Items::new(alloc), body);
    let is_sent = send_reply(alloc, &mut sink, &reply).is_ok();
    drop(reply);
    Ok((is_sent, sink.written().len()))
}

// The length of a body, the number of the call that fails, whether the reply is sent, and how many bytes are written
// then. The head has 186 bytes. A body of up to 65,536 bytes goes out in one piece with it, a longer one in a piece of
// its own; of a piece that fails the first half is written.
static PIECES: [(usize, u64, (bool, usize)); 4] = [
    (65_536, 1, (false, 32_861)),
    (65_536, 2, (true, 65_722)),
    (65_537, 2, (false, 32_954)),
    (65_537, 3, (true, 65_723)),
];

#[test]
fn replies_go_out_in_few_pieces(rt: HostRuntime) -> Result<(), Fail> {
    for (length, failing, want) in &PIECES {
        assert_eq!(rt;
            sent(rt.alloc(), *length, *failing)?,
            *want,
            "{length} {failing}"
        );
    }
    Ok(())
}
