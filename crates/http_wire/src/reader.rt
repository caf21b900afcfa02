//! The requests of a stream, however its reads are cut.

ghost use Rattle.std.specs.Prelude.{◌≡◌, ◌≤◌, ◌<◌, ◌++◌, ℕ, List, [], None, drop, length, vec_len, IfOk, OnOk};
ghost use Rattle.std.specs.Io.KnownBytes.{Consumes, prepend_known};
ghost use Rattle.status_info.specs.declared.request.Request.{Request};
ghost use Rattle.http_wire.specs.Reading.{AreRequests, bytes_due, end_fault, Fills, Leaves, NextGives, OnStream};
ghost use Rattle.http_wire.specs.Reading.{SourceCause};

use crate::fault::WireFault;
use crate::front::read_front;
use outside_ports::Source;
use roster_base::NoMemory;
use status_info::Request;
use std::alloc::Global;
use std::marker::Model;

// How many bytes a read asks for.
const CHUNK: usize = 4_096;

/// Reads the requests of a stream. A clause sees the bytes that were taken behind the last request, and the fault that
/// stands from then on.
#[derive(Drop)]
pub struct WireReader {
    buffer: Vec<u8>,
    fault: Option<WireFault>,
}

impl Model for WireReader {
    ghost use Rattle.http_wire.specs.Reading.{Held};

    ghost Value = { Held };

    ghost use Rattle.http_wire.specs.Lasting.{Stands};

    ghost view = { λ s. record { kept = s.buffer.items; fault = s.fault } };

    ghost invariant = { λ s. Stands s.fault };
}

// Takes the next bytes of the source to the end of the buffer, and says how many.
fn fill<S: Source>(buffer: &mut Vec<u8>, source: &mut S) -> Result<usize, WireFault>
    ensures bytes { Fills (S.left source.old) (S.left source.new) buffer.old.items buffer.new.items result }
    ensures budget { S.budget source.new ≤ S.budget source.old }
    ensures due { bytes_due (S.budget source.new) (vec_len buffer.new) ≤ bytes_due (S.budget source.old) (vec_len buffer.old) }
    ensures cause { SourceCause (S.faults source.old) (S.faults source.new) result }
{
    buffer.reserve(CHUNK)?;
    let mut chunk = [0; CHUNK];
    let Ok(count) = source.read(&mut chunk) else {
        return Err(WireFault::Source);
    };
    if buffer.extend_from_slice(&chunk[..count]).is_err() {
        unreachable!();
    }
    Ok(count)
}

/// The fault where the input ends behind these bytes.
pub(crate) fn fault_at_end(kept: &[u8]) -> WireFault
    ensures { result ≡ end_fault kept.now }
{
    if kept.is_empty() {
        WireFault::End
    } else {
        WireFault::Cut
    }
}

// Takes bytes away from the front.
fn drop_front(buffer: &mut Vec<u8>, count: usize)
    requires { count ≤ vec_len buffer.old }
    ensures { buffer.new.items ≡ drop count buffer.old.items }
{
    buffer.drain(..count);
}

// Takes the next request from the front of the buffer, which is filled as far as it needs.
fn next_request<S: Source>(
    alloc: Global,
    buffer: &mut Vec<u8>,
    source: &mut S,
) -> Result<Request, WireFault>
    ensures bytes { (taken : List ℕ) × Consumes (S.left source.old) (S.left source.new) taken
        × Leaves (buffer.old.items ++ taken) buffer.new.items (S.left source.new) result }
    ensures budget { S.budget source.new ≤ S.budget source.old }
    ensures due { OnOk result (bytes_due (S.budget source.new) (vec_len buffer.new) < bytes_due (S.budget source.old) (vec_len buffer.old)) }
    ensures cause { SourceCause (S.faults source.old) (S.faults source.new) result }
{
    'reading: loop {
        match read_front(alloc, buffer.as_slice())? {
            Some((request, len)) => {
                drop_front(buffer, len);
                return Ok(request);
            }
            None => {
                if fill(buffer, source)? == 0 {
                    return Err(fault_at_end(buffer.as_slice()));
                }
            }
        }
    }
}

impl WireReader {
    /// A reader at the beginning of a stream: nothing is kept, and no fault stands.
    pub fn new(alloc: Global) -> Result<WireReader, NoMemory>
        ensures kept { IfOk result (λ reader. reader.kept ≡ []) }
        ensures fault { IfOk result (λ reader. reader.fault ≡ None) }
    {
        Ok(WireReader {
            buffer: Vec::with_capacity(alloc, CHUNK)?,
            fault: None,
        })
    }

    /// The number of bytes that were taken of the next request.
    pub fn kept(&self) -> u64
        ensures { result ≡ length self.now.kept }
    {
        self.buffer.len() as u64
    }

    // The next request, by the bytes that are kept and those that the call takes.
    fn take_next<S: Source>(&mut self, alloc: Global, source: &mut S) -> Result<Request, WireFault>
        ensures bytes { (taken : List ℕ) × Consumes (S.left source.old) (S.left source.new) taken
            × NextGives self.old taken self.new (S.left source.new) result }
        ensures budget { S.budget source.new ≤ S.budget source.old }
        ensures due { OnOk result (bytes_due (S.budget source.new) (length self.new.kept) < bytes_due (S.budget source.old) (length self.old.kept)) }
        ensures cause { SourceCause (S.faults source.old) (S.faults source.new) result }
    {
        if let Some(fault) = self.fault {
            return Err(fault);
        }
        match next_request(alloc, &mut self.buffer, source) {
            Ok(request) => Ok(request),
            Err(fault) => {
                self.fault = fault.lasting();
                Err(fault)
            }
        }
    }

    /// The next request. After `Source` or `NoMemory` the bytes taken stay, and the call may be made
    /// again. After another fault each later call answers the same fault, and reads nothing.
    pub fn next<S: Source>(&mut self, alloc: Global, source: &mut S) -> Result<Request, WireFault>
        ensures bytes { (taken : List ℕ) × Consumes (S.left source.old) (S.left source.new) taken
            × NextGives self.old taken self.new (S.left source.new) result }
        // However the reads are cut, it is the request at the front of the whole stream.
        ensures stream { OnStream self.old.fault (prepend_known self.old.kept (S.left source.old))
            (prepend_known self.new.kept (S.left source.new)) result }
        ensures budget { S.budget source.new ≤ S.budget source.old }
        ensures due { OnOk result (bytes_due (S.budget source.new) (length self.new.kept) < bytes_due (S.budget source.old) (length self.old.kept)) }
        ensures cause { SourceCause (S.faults source.old) (S.faults source.new) result }
    {
        self.take_next(alloc, source)
    }
}

/// The bytes of a stream have one list of requests.
pub fn one_reading()
    ensures { (bytes : List ℕ) (xs ys : List Request) (rest others : List ℕ) → AreRequests bytes xs rest → AreRequests bytes ys others
        → (xs ≡ ys) × (rest ≡ others) }
{}
