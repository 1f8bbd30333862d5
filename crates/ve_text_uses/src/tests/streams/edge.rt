//! Readers as sources and writers as sinks.
use std::io;
use std::io::{ErrorKind, Read, Write};
use ve_port::{Failed, FromRead, Sink, Source, ToWrite};

/// What a call of a scripted stream does.
#[derive(Clone, Copy, Debug)]
enum Turn {
    One,
    Nothing,
    Interrupted,
    Broken,
}

use Turn::{Broken, Interrupted, Nothing, One};

/// A stream that moves one byte or none in each call, one call after another by its turns, and one
/// byte in each later call.
#[derive(Drop)]
struct Script<'a> {
    turns: &'a [Turn],
    written: &'a mut Vec<u8>,
    flushes: &'a mut u8,
}

impl Script<'_> {
    fn next(&mut self) -> io::Result<bool> {
        let Some((turn, rest)) = self.turns.split_first() else {
            return Ok(true);
        };
        self.turns = rest;
        match turn {
            One => Ok(true),
            Nothing => Ok(false),
            Interrupted => Err(io::Error::from(ErrorKind::Interrupted)),
            Broken => Err(io::Error::from(ErrorKind::BrokenPipe)),
        }
    }
}

impl Read for Script<'_> {
    fn read(&mut self, buffer: &mut [u8]) -> io::Result<usize> {
        if !self.next()? || buffer.is_empty() {
            return Ok(0);
        }
        buffer[0] = b'x';
        Ok(1)
    }
}

impl Write for Script<'_> {
    fn write(&mut self, piece: &[u8]) -> io::Result<usize> {
        if !self.next()? || piece.is_empty() {
            return Ok(0);
        }
        self.written.push(piece[0])?;
        Ok(1)
    }

    fn flush(&mut self) -> io::Result<()> {
        *self.flushes = self.flushes.saturating_add(1);
        Ok(())
    }
}

#[test]
fn a_reader_is_a_source(rt: HostRuntime) {
    let (mut written, mut flushes) = (Vec::new(rt.alloc()), 0);
    let mut source = FromRead::new(Script {
        turns: &[One, Interrupted, Interrupted, One, Broken, Nothing],
        written: &mut written,
        flushes: &mut flushes,
    });
    let mut buffer = *b"...";
    for answer in [Ok(1), Ok(1), Err(Failed), Ok(0), Ok(1)] {
        assert_eq!(rt; source.take(&mut buffer), answer);
    }
}

/// Turns, a piece, the answer, the bytes that were written and how often they were flushed.
const PUTS: &[(&[Turn], &[u8], Result<(), Failed>, &[u8], u8)] = &[
    (&[], b"abc", Ok(()), b"abc", 1),
    (&[], b"", Ok(()), b"", 1),
    (&[Interrupted, One, Interrupted], b"abc", Ok(()), b"abc", 1),
    (&[Nothing], b"abc", Err(Failed), b"", 0),
    (&[One, Nothing], b"abc", Err(Failed), b"a", 0),
    (&[One, One, Broken], b"abc", Err(Failed), b"ab", 0),
];

#[test]
fn a_writer_is_a_sink(rt: HostRuntime) {
    for (turns, piece, answer, bytes, flushed) in PUTS {
        let (mut written, mut flushes) = (Vec::new(rt.alloc()), 0);
        let found = put(turns, &mut written, &mut flushes, piece);
        let left = (found, written.as_slice(), flushes);
        assert!(rt; left == (*answer, *bytes, *flushed), "{turns:?}");
    }
}

fn put(
    turns: &[Turn],
    written: &mut Vec<u8>,
    flushes: &mut u8,
    piece: &[u8],
) -> Result<(), Failed> {
    let mut sink = ToWrite::new(Script {
        turns,
        written,
        flushes,
    });
    sink.put(piece)
}
