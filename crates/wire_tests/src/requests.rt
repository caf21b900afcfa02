//! Requests: a stream in many cuts, each request written again, streams that are refused, and the limits.

use http_wire::{WireFault, WireReader, read_requests, write_request};
use outside_ports::MemSource;
use roster_base::NoMemory;
use status_info::Request;
use std::alloc::Global;
use std::test::Fail;

// Two requests, and the front of a third.
static TWO: &str =
    "PUT /a/b?x=1?y HTTP/1.1\r\nHOST: hub\r\nauthorization: bEARER  tok-e\r\nX-Hub-Mark: 7\r\nX-Hub-Exchange: 1.20\r\nContent-Length: 5\r\n\r\nhelloGET /c HTTP/1.0\r\n\r\nGET";

// Both as a consumer writes them.
static WRITTEN: &str =
    "PUT /a/b?x=1?y HTTP/1.1\r\nHost: hub\r\nAuthorization: Bearer tok-e\r\nX-Hub-Mark: 7\r\nX-Hub-Exchange: 1.20\r\nContent-Length: 5\r\n\r\nhelloGET /c HTTP/1.1\r\nHost: hub\r\n\r\n";

// The stream of two requests in pieces of so many bytes, whose first read fails.
fn cut_source(alloc: Global, cut: usize) -> Result<MemSource, Fail> {
    let bytes = TWO.as_bytes().to_vec(alloc)?;
    let cuts = vec![in alloc; cut; 150]?;
    Ok(MemSource::new(bytes, cuts, vec![in alloc; 1]?))
}

fn written(alloc: Global, requests: &[Request]) -> Result<Vec<u8>, NoMemory> {
    let mut bytes = Vec::new(alloc);
    for request in requests {
        bytes.extend_from_slice(write_request(alloc, request)?.as_slice())?;
    }
    Ok(bytes)
}

// The requests of a source whose first read fails, as they are written, and why there is none behind them.
fn read_again(
    alloc: Global,
    mut reader: WireReader,
    mut source: MemSource,
) -> Result<(Vec<u8>, Option<WireFault>), Fail> {
    if !matches!(reader.next(alloc, &mut source), Err(WireFault::Source)) {
        return Err(Fail::new("the first read fails"));
    }
    let (requests, _) = read_requests(alloc, &mut reader, &mut source);
    let behind = reader.next(alloc, &mut source).err();
    let bytes = written(alloc, requests.as_slice());
    drop(requests);
    Ok((bytes?, behind))
}

#[test]
fn cuts_change_nothing(rt: HostRuntime) -> Result<(), Fail> {
    let alloc = rt.alloc();
    for cut in 1..41 {
        let source = cut_source(alloc, cut)?;
        let (bytes, behind) = read_again(alloc, WireReader::new(alloc)?, source)?;
        assert_eq!(rt;
            (str::from_utf8(bytes.as_slice()), behind),
            (Ok(WRITTEN), Some(WireFault::Cut)),
            "{cut}"
        );
    }
    Ok(())
}

// The faults of two calls at the beginning of a stream.
fn faults_of(alloc: Global, bytes: Vec<u8>) -> Result<[Option<WireFault>; 2], NoMemory> {
    let mut source = MemSource::new(bytes, Vec::new(alloc), Vec::new(alloc));
    let mut reader = WireReader::new(alloc)?;
    let first = reader.next(alloc, &mut source).err();
    let second = reader.next(alloc, &mut source).err();
    Ok([first, second])
}

static BAD_STREAMS: [(&str, WireFault); 11] = [
    ("", WireFault::End),
    ("GET /ims", WireFault::Cut),
    ("GET / HTTP/1.1\r\n\r", WireFault::Cut),
    ("G(T / HTTP/1.1\r\n\r\n", WireFault::Head),
    ("GET / HTTP/2.0\r\n\r\n", WireFault::Head),
    ("GET /\0 HTTP/1.1\r\n\r\n", WireFault::Head),
    (
        "PUT / HTTP/1.1\r\nContent-Length: 9\r\n\r\n12345678",
        WireFault::Cut,
    ),
    (
        "PUT / HTTP/1.1\r\nContent-Length: 1x\r\n\r\n",
        WireFault::Length,
    ),
    (
        "PUT / HTTP/1.1\r\nContent-Length: 1\r\ncontent-length: 2\r\n\r\nab",
        WireFault::Length,
    ),
    (
        "PUT / HTTP/1.1\r\nContent-Length: 131073\r\n\r\n",
        WireFault::BodyTooLong,
    ),
    (
        "PUT / HTTP/1.1\r\nTransfer-Encoding: chunked\r\n\r\n0\r\n\r\n",
        WireFault::Chunked,
    ),
];

#[test]
fn bad_streams_are_refused_again(rt: HostRuntime) -> Result<(), Fail> {
    let alloc = rt.alloc();
    for (stream, want) in &BAD_STREAMS {
        let faults = faults_of(alloc, stream.as_bytes().to_vec(alloc)?)?;
        assert_eq!(rt; faults, [Some(*want), Some(*want)], "{stream}");
    }
    Ok(())
}

// The front of a stream, how often its piece stands behind that and before the end, and the fault.
static LIMITS: [(&str, &str, usize, Option<WireFault>); 5] = [
    ("GET / HTTP/1.1\r\nA: ", "x", 16_361, None),
    (
        "GET / HTTP/1.1\r\nA: ",
        "x",
        16_362,
        Some(WireFault::HeadTooLong),
    ),
    ("GET / HTTP/1.1\r\nA: b", "\r\nA: b", 63, None),
    (
        "GET / HTTP/1.1\r\nA: b",
        "\r\nA: b",
        64,
        Some(WireFault::HeadTooLong),
    ),
    (
        "PUT / HTTP/1.1\r\nContent-Length: 131072\r\n\r\n",
        "x",
        131_072,
        None,
    ),
];

fn repeating(alloc: Global, front: &str, piece: &str, times: usize) -> Result<Vec<u8>, Fail> {
    let pieces = piece.repeat(alloc, times)?;
    Ok(format!(in alloc; "{front}{pieces}\r\n\r\n")?.into_bytes())
}

#[test]
fn limits_hold(rt: HostRuntime) -> Result<(), Fail> {
    let alloc = rt.alloc();
    for (front, piece, times, want) in &LIMITS {
        let faults = faults_of(alloc, repeating(alloc, front, piece, *times)?)?;
        assert_eq!(rt; faults[0], *want, "{times} of {piece}");
    }
    Ok(())
}
