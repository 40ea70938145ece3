use super::seeds::hash_of;
use pgn_base::{Failed, Seed, Sink, Source};
use pgn_streams::{Input, Output, drawn};
use std::alloc::Global;
use std::io;
use std::io::{BufReader, ErrorKind, Read, Write};
use std::random::RandomSource;

// A stream of which each second call is interrupted by a signal. Of the others a read first gives `abc`, and then fails; a write first
// takes all, then nothing, and then fails.
#[derive(Drop)]
struct Stream {
    calls: u32,
}

impl Read for Stream {
    fn read(&mut self, buf: &mut [u8]) -> io::Result<usize> {
        self.calls = self.calls.wrapping_add(1);
        match self.calls {
            1 | 3 => Err(io::Error::from(ErrorKind::Interrupted)),
            2 => b"abc".as_slice().read(buf),
            _ => Err(io::Error::from(ErrorKind::BrokenPipe)),
        }
    }
}

impl Write for Stream {
    fn write(&mut self, buf: &[u8]) -> io::Result<usize> {
        self.calls = self.calls.wrapping_add(1);
        match self.calls {
            1 | 3 | 5 => Err(io::Error::from(ErrorKind::Interrupted)),
            2 => Ok(buf.len()),
            4 => Ok(0),
            _ => Err(io::Error::from(ErrorKind::BrokenPipe)),
        }
    }

    fn flush(&mut self) -> io::Result<()> {
        Ok(())
    }
}

// Whether a source gives `ab`, then `c`, and then fails.
fn gives_and_fails<S: Source>(source: &mut S) -> bool {
    let mut buffer = [0; 2];
    source.read(&mut buffer) == Ok(2)
        && &buffer == b"ab"
        && source.read(&mut buffer) == Ok(1)
        && buffer[0] == b'c'
        && source.read(&mut buffer) == Err(Failed)
}

fn is_buffered(alloc: Global) -> bool {
    let Ok(reader) = BufReader::new(alloc, Stream { calls: 0 }) else {
        return false;
    };
    let mut source = Input::new(reader);
    let right = gives_and_fails(&mut source);
    drop(source);
    right
}

// It asks its stream for more only once it has given all, again where that is interrupted, and then fails with it.
#[test]
fn a_buffer_gives_what_came(rt: HostRuntime) {
    assert!(rt; is_buffered(rt.alloc()));
}

// Whether a sink takes `abc`, then nothing of `d`, and then fails.
fn takes_and_fails<K: Sink>(sink: &mut K) -> bool {
    sink.write(b"abc") == Ok(3) && sink.write(b"d") == Ok(0) && sink.write(b"d") == Err(Failed)
}

#[test]
fn an_interrupted_write_is_tried_again(rt: HostRuntime) {
    assert!(rt; takes_and_fails(&mut Output::new(Stream { calls: 0 })));
}

// Gives bytes of 7, or none.
#[derive(Drop)]
struct Bytes {
    given: bool,
}

impl RandomSource for Bytes {
    fn fill_bytes(&self, buf: &mut [u8]) -> io::Result<()> {
        if !self.given {
            return Err(io::Error::from(ErrorKind::Unsupported));
        }
        buf.fill(7);
        Ok(())
    }
}

// Whether the seed that is drawn then has the hashes of another.
fn is_drawn(given: bool, seed: Seed) -> bool {
    hash_of(drawn(&Bytes { given }), b"c") == hash_of(seed, b"c")
}

#[test]
fn the_seed_is_drawn_where_there_are_random_bytes(rt: HostRuntime) {
    assert!(rt; is_drawn(true, Seed::new([7; 16])));
    assert!(rt; is_drawn(false, Seed::fixed()));
}
