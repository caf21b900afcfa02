//! All requests of a stream.

ghost use Rattle.std.specs.Prelude.{◌≡◌, ◌<◌, ◌++◌, ◌∷◌, [], None, option_and_then, vec_len, vec_capacity};
ghost use Rattle.std.specs.Io.KnownBytes.{prepend_known};
ghost use Rattle.http_wire.specs.Lasting.{lasting};
ghost use Rattle.http_wire.specs.Reading.{HasRead};

use crate::fault::WireFault;
use crate::reader::WireReader;
use outside_ports::Source;
use status_info::Request;
use std::alloc::Global;

// Adds a request where there is room for it.
fn push_in_room(requests: &mut Vec<Request>, request: Request)
    requires { vec_len requests.old < vec_capacity requests.old }
    ensures { requests.new.items ≡ requests.old.items ++ request ∷ [] }
{
    if requests.push(request).is_err() {
        unreachable!();
    }
}

/// Reads requests up to one that closes the stream, or up to the fault that stands beside them. Of what was read before
/// a fault nothing is lost: after `Source` or `NoMemory` the reader stands behind the last request, and may be asked
/// again.
pub fn read_requests<S: Source>(
    alloc: Global,
    reader: &mut WireReader,
    source: &mut S,
) -> (Vec<Request>, Option<WireFault>)
    requires { reader.old.fault ≡ None }
    ensures read { HasRead (prepend_known reader.old.kept (S.left source.old)) (prepend_known reader.new.kept (S.left source.new))
        result.0.items result.1 }
    // A fault stands, but for the source's and want of memory.
    ensures stands { reader.new.fault ≡ option_and_then lasting result.1 }
{
    let mut requests = Vec::new(alloc);
    'reading: loop {
        if requests.reserve(1).is_err() {
            return (requests, Some(WireFault::NoMemory));
        }
        match reader.next(alloc, source) {
            Ok(request) => {
                let close = request.close;
                push_in_room(&mut requests, request);
                if close {
                    return (requests, None);
                }
            }
            Err(fault) => return (requests, Some(fault)),
        }
    }
}
