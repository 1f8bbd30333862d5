//! Sources and sinks in memory, and a source that reads from memory.
use std::test::Fail;
use ve_port::{Failed, FromRead, MemSink, MemSource, Sink, Source, SureSink, SureSource};

/// Sizes of a buffer of dots, what a source answers, and what then stands in the buffer.
type Takes = &'static [(usize, Result<usize, Failed>, &'static [u8])];

const FILLED: Takes = &[
    (3, Ok(3), b"abc....."),
    (8, Ok(2), b"de......"),
    (8, Ok(0), b"........"),
    (1, Ok(0), b"........"),
];

const FILLED_OR_FAILED: Takes = &[
    (2, Ok(2), b"ab......"),
    (8, Err(Failed), b"........"),
    (1, Ok(1), b"c......."),
    (8, Ok(2), b"de......"),
    (8, Err(Failed), b"........"),
    (8, Ok(0), b"........"),
];

#[test]
fn sources_give_what_fits(rt: HostRuntime) -> Result<(), Fail> {
    let alloc = rt.alloc();
    let mut failing = MemSource::new(b"abcde".to_vec(alloc)?, vec![in alloc; 5, 2]?);
    assert!(rt; gives(&mut failing, FILLED_OR_FAILED));
    assert!(rt; gives(&mut SureSource::new(b"abcde".to_vec(alloc)?), FILLED));
    assert!(rt; gives(&mut FromRead::new(b"abcde".as_slice()), FILLED));
    Ok(())
}

fn gives<S: Source>(source: &mut S, takes: Takes) -> bool {
    for &(size, answer, filled) in takes {
        let mut buffer = *b"........";
        let taken = source.take(&mut buffer[..size.clamp(1, 8)]);
        if taken != answer || buffer.as_slice() != filled {
            return false;
        }
    }
    true
}

/// Pieces, the answers, and what was written then.
const PUTS: &[(&[u8], Result<(), Failed>, &[u8])] = &[
    (b"one\n", Ok(()), b"one\n"),
    (b"two\n", Err(Failed), b"one\n"),
    (b"three\n", Ok(()), b"one\nthree\n"),
];

#[test]
fn sinks_in_memory_fail_where_they_are_told(rt: HostRuntime) -> Result<(), Fail> {
    let alloc = rt.alloc();
    let mut sink = MemSink::new(alloc, vec![in alloc; 2]?);
    for (piece, answer, written) in PUTS {
        assert!(rt; sink.put(piece) == *answer && sink.written().as_slice() == *written);
    }
    assert!(rt; SureSink::new().put(b"four") == Ok(()));
    Ok(())
}
