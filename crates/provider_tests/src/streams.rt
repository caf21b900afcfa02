//! Streams of requests that fail at each place.

ghost use Rattle.hub_core.specs.Standing.{KeeperFits};

use crate::district::{SECOND, opened};
use http_wire::WireFault;
use hub_core::Hub;
use keeper_memory::{HubKeeper, MemHub};
use outside_ports::{FixedClock, MemSink, MemSource};
use rest_paths::PathRouter;
use rest_provider::{Desk, StreamEnd, serve_stream};
use roster_base::NoMemory;
use std::alloc::Global;
use std::process::Abort;
use std::test::Fail;

// Requests, and what is written for them, however often they were answered before.
static REPLIES: [(&str, &str); 3] = [
    (
        "PUT /ims/oneroster/v1p1/categories/c2 HTTP/1.1\r\nHost: hub\r\nAuthorization: Bearer tok-g\r\nContent-Length: 29\r\n\r\n{\"category\":{\"title\":\"Quiz\"}}",
        "HTTP/1.1 201 Created\r\nContent-Type: application/json\r\nX-Hub-Version: 3\r\nContent-Length: 107\r\n\r\n{\"imsx_codeMajor\":\"success\",\"imsx_codeMinor\":\"full_success\",\"imsx_description\":\"\",\"imsx_severity\":\"status\"}",
    ),
    (
        "GET /ims/oneroster/v1p1/orgs?limit=0 HTTP/1.1\r\nHost: hub\r\nAuthorization: Bearer tok-r\r\nX-Hub-Exchange: 7.3\r\n\r\n",
        "HTTP/1.1 400 Bad Request\r\nContent-Type: application/json\r\nX-Hub-Version: 3\r\nX-Hub-Exchange: 7.3\r\nContent-Length: 115\r\n\r\n{\"imsx_codeMajor\":\"failure\",\"imsx_codeMinor\":\"invalid_data\",\"imsx_description\":\"bad limit\",\"imsx_severity\":\"error\"}",
    ),
    (
        "HEAD /ims/oneroster/v1p1/categories/c2 HTTP/1.1\r\nHost: hub\r\n\r\n",
        "HTTP/1.1 405 Method Not Allowed\r\nContent-Type: application/json\r\nAllow: GET, PUT, DELETE\r\nContent-Length: 0\r\n\r\n",
    ),
];

// The requests, one behind the other.
fn stream(alloc: Global) -> Result<Vec<u8>, NoMemory> {
    let mut bytes = Vec::new(alloc);
    for (request, _) in &REPLIES {
        bytes.extend_from_slice(request.as_bytes())?;
    }
    Ok(bytes)
}

// What so many bytes of the requests get: how many of them are whole, and what is written.
fn answered(alloc: Global, bytes: usize) -> Result<(u64, Vec<u8>), NoMemory> {
    let mut end: usize = 0;
    let mut count: u64 = 0;
    let mut written = Vec::new(alloc);
    for (request, reply) in &REPLIES {
        end = end.saturating_add(request.len());
        if end <= bytes {
            count = count.saturating_add(1);
            written.extend_from_slice(reply.as_bytes())?;
        }
    }
    Ok((count, written))
}

// What a source gets: the end of its stream, and what is written.
fn served<H: HubKeeper>(
    alloc: Global,
    router: &PathRouter,
    hub: &mut Hub,
    keeper: &mut H,
    mut source: MemSource,
) -> Result<(StreamEnd, MemSink), NoMemory>
    requires { KeeperFits (H.stands_for keeper.old) hub.old }
    ensures { KeeperFits (H.stands_for keeper.new) hub.new }
{
    let mut sink = MemSink::new(alloc, 4096, Vec::new(alloc))?;
    let clock = FixedClock::at(SECOND);
    let desk = Desk {
        alloc,
        router,
        clock: &clock,
    };
    let end = serve_stream(&desk, hub, keeper, &mut source, &mut sink);
    drop(source);
    Ok((end, sink))
}

// The first read gives so many bytes, and the next one fails: what is whole by then is answered.
fn assert_failed<H: HubKeeper>(
    rt: &impl Abort,
    alloc: Global,
    router: &PathRouter,
    hub: &mut Hub,
    keeper: &mut H,
    at: usize,
) -> Result<(), Fail>
    requires { KeeperFits (H.stands_for keeper.old) hub.old }
    ensures { KeeperFits (H.stands_for keeper.new) hub.new }
{
    let (requests, written) = answered(alloc, at)?;
    let want = StreamEnd::Wire {
        request: requests.saturating_add(1),
        fault: WireFault::Source,
    };
    let source = MemSource::new(stream(alloc)?, vec![in alloc; at]?, vec![in alloc; 2]?);
    let (end, sink) = served(alloc, router, hub, keeper, source)?;
    assert_eq!(rt; (end, sink.written()), (want, written.as_slice()), "{at}");
    Ok(())
}

// The whole stream ends, and is answered.
fn assert_whole<H: HubKeeper>(
    rt: &impl Abort,
    alloc: Global,
    router: &PathRouter,
    hub: &mut Hub,
    keeper: &mut H,
) -> Result<(), Fail>
    requires { KeeperFits (H.stands_for keeper.old) hub.old }
    ensures { KeeperFits (H.stands_for keeper.new) hub.new }
{
    let bytes = stream(alloc)?;
    let (requests, written) = answered(alloc, bytes.len())?;
    let source = MemSource::new(bytes, Vec::new(alloc), Vec::new(alloc));
    let (end, sink) = served(alloc, router, hub, keeper, source)?;
    let want = StreamEnd::Closed { requests, kept: 0 };
    assert_eq!(rt; (end, sink.written()), (want, written.as_slice()));
    Ok(())
}

fn assert_all<H: HubKeeper>(
    rt: &impl Abort,
    alloc: Global,
    hub: &mut Hub,
    keeper: &mut H,
) -> Result<(), Fail>
    requires { KeeperFits (H.stands_for keeper.old) hub.old }
{
    let router = PathRouter::new(alloc)?;
    let count = stream(alloc)?.len();
    for at in 1..count {
        assert_failed(rt, alloc, &router, hub, keeper, at)?;
    }
    assert_whole(rt, alloc, &router, hub, keeper)
}

fn assert_over<H: HubKeeper>(rt: &impl Abort, alloc: Global, keeper: &mut H) -> Result<(), Fail> {
    let mut hub = opened(rt, alloc, keeper)?;
    let asserted = assert_all(rt, alloc, &mut hub, keeper);
    drop(hub);
    asserted
}

#[test]
fn streams_fail_at_each_place(rt: HostRuntime) -> Result<(), Fail> {
    let mut keeper = MemHub::new(rt.alloc(), 9);
    let asserted = assert_over(&rt, rt.alloc(), &mut keeper);
    drop(keeper);
    asserted
}
