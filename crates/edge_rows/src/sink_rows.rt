//! Rows on sinks: what single writes and whole ones answer, by room and by faults.

use crate::test_support::calls;
use edge_io::mem_sink::MemSink;
use edge_io::null_sink::NullSink;
use edge_io::sink::{Failed, Sink};
use edge_io::whole::{SinkFault, write_all};
use std::alloc::Global;
use std::process::Abort;
use std::test::Fail;

/// Pieces, and what their writes answer one after the other: there is room for 5 bytes, call 1 fails and call 2 takes nothing.
const WRITES: [(&[u8], Result<usize, Failed>); 6] = [
    (b"abc", Ok(3)),
    (b"d", Err(Failed)),
    (b"d", Ok(0)),
    (b"", Ok(0)),
    (b"def", Ok(2)),
    (b"f", Ok(0)),
];

/// Tells where the write of a piece answers otherwise.
fn compare_write(rt: &impl Abort, sink: &mut MemSink, piece: &[u8], answer: Result<usize, Failed>) {
    assert_eq!(rt; sink.write(piece), answer);
}

#[test]
fn sink_in_memory_fails_by_number_and_room(rt: HostRuntime) -> Result<(), Fail> {
    let (fail, none) = (calls(rt.alloc(), &[1])?, calls(rt.alloc(), &[2])?);
    let mut sink = MemSink::new(rt.alloc(), 5, fail, none)?;
    for (piece, answer) in &WRITES {
        compare_write(&rt, &mut sink, piece, *answer);
    }
    assert_eq!(rt; sink.bytes(), b"abcde".as_slice());
    Ok(())
}

/// The room of a sink, the calls that fail and those that take nothing, what a whole write of six bytes answers, and what is then
/// written.
type Row<'a> = (u32, &'a [u32], &'a [u32], Result<(), SinkFault>, &'a [u8]);

const WHOLE_WRITES: [Row; 5] = [
    (9, &[], &[], Ok(()), b"abcdef"),
    (4, &[], &[], Err(SinkFault::TookNone), b"abcd"),
    (4, &[1], &[], Err(SinkFault::Failed), b"abcd"),
    (9, &[0], &[], Err(SinkFault::Failed), b""),
    (9, &[], &[0], Err(SinkFault::TookNone), b""),
];

/// Tells where a row comes to something else.
fn try_whole_write(rt: &impl Abort, alloc: Global, row: &Row) -> Result<(), Fail> {
    let (room, fail, none, answer, got) = row;
    let mut sink = MemSink::new(alloc, *room, calls(alloc, fail)?, calls(alloc, none)?)?;
    assert_eq!(rt; write_all(&mut sink, b"abcdef"), *answer);
    assert_eq!(rt; sink.bytes(), *got);
    Ok(())
}

#[test]
fn whole_writes_end_by_room_and_faults(rt: HostRuntime) -> Result<(), Fail> {
    for row in &WHOLE_WRITES {
        try_whole_write(&rt, rt.alloc(), row)?;
    }
    assert_eq!(rt; write_all(&mut NullSink, b"abcdef"), Ok(()));
    Ok(())
}
