//! A source over a reader of the system, and a sink over a writer, each with calls that fail.

use outside_ports::{Failed, IoSink, IoSource, Sink, Source};
use roster_base::NoMemory;
use std::alloc::Global;
use std::io;
use std::io::{ErrorKind, Read};
use std::test::Fail;

// A reader that gives its bytes two at a time, and fails behind them.
#[derive(Drop)]
struct Pairs<'a>(&'a [u8]);

impl<'a> Read for Pairs<'a> {
    fn read(&mut self, buf: &mut [u8]) -> io::Result<usize> {
        if self.0.len() < 2 || buf.len() < 2 {
            return Err(io::Error::from(ErrorKind::Other));
        }
        buf[..2].copy_from_slice(&self.0[..2]);
        self.0 = &self.0[2..];
        Ok(2)
    }
}

// What four reads with room for four bytes give, each behind a bar: a read that fails shows that the room is as it was.
fn reads(alloc: Global, source: &mut IoSource<Pairs<'_>>) -> Result<Vec<u8>, NoMemory> {
    let mut line = Vec::new(alloc);
    for _ in 0..4 {
        let mut room = [b'.'; 4];
        let given = source.read(&mut room).unwrap_or(4);
        line.extend_from_slice(&room[..given.min(4)])?;
        line.push(b'|')?;
    }
    Ok(line)
}

#[test]
fn source_over_a_reader_counts_its_errors(rt: HostRuntime) -> Result<(), Fail> {
    let mut source = IoSource::new(Pairs(b"abcde"));
    let line = reads(rt.alloc(), &mut source)?;
    assert_eq!(rt;
        (line.as_slice(), source.read_faults()),
        (b"ab|cd|....|....|".as_slice(), 2)
    );
    Ok(())
}

#[test]
fn sink_over_a_writer_counts_its_errors(rt: HostRuntime) {
    let mut room = [b'.'; 5];
    let mut sink = IoSink::new(room.as_mut_slice());
    let answers = (
        sink.write_all(b"ab"),
        sink.write_all(b"cdef"),
        sink.write_all(b""),
        sink.write_faults(),
    );
    drop(sink);
    let printed = IoSink::new(io::writer(&rt)).write_all(b"one line\n");
    assert_eq!(rt;
        (answers, printed),
        ((Ok(()), Err(Failed), Ok(()), 1), Ok(()))
    );
    assert_eq!(rt; room, *b"abcde");
}
