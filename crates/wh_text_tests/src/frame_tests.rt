// The bodies of frames, byte by byte.
use std::alloc::Global;
use std::test::Fail;
use wh_base::ByteText;
use wh_codec::{Frame, FrameFault, read_frame, write_frame};

const SPEC: &[u8] = b"relation R(k int) key (k);\n";

// Generation 1, number 0, the 27 bytes of the specification, one table with no row.
const SNAPSHOT: &[u8] = b"\x01\x00\x00\x00\x00\x00\x00\x00\x01\x00\x00\x00\x00\x00\x00\x00\x00\
\x00\x00\x00\x1brelation R(k int) key (k);\n\x00\x00\x00\x01\x00\x00\x00\x00";

// Number 1, one table, no deleted row, the inserted row of the integer 5.
const CHANGE: &[u8] = &[
    2, 0, 0, 0, 0, 0, 0, 0, 1, 0, 0, 0, 1, 0, 0, 0, 0, 0, 0, 0, 1, 1, 1, 0, 0, 0, 0, 0, 0, 0, 5,
];

const BAD: &[&[u8]] = &[
    // Counts of 4,294,967,295 tables and rows ask for no memory.
    &[
        2, 0, 0, 0, 0, 0, 0, 0, 1, 255, 255, 255, 255, 0, 0, 0, 0, 0, 0, 0, 1, 1, 1, 0, 0, 0, 0, 0,
        0, 0, 5,
    ],
    &[
        2, 0, 0, 0, 0, 0, 0, 0, 1, 0, 0, 0, 1, 0, 0, 0, 0, 255, 255, 255, 255, 1, 1, 0, 0, 0, 0, 0,
        0, 0, 5,
    ],
    // The last byte is left out.
    &[
        2, 0, 0, 0, 0, 0, 0, 0, 1, 0, 0, 0, 1, 0, 0, 0, 0, 0, 0, 0, 1, 1, 1, 0, 0, 0, 0, 0, 0, 0,
    ],
];

fn is_expected_snapshot(frame: &Frame) -> bool {
    match frame {
        Frame::Snapshot {
            generation,
            seq,
            spec,
            tables,
        } => *generation == 1 && *seq == 0 && spec.as_slice() == SPEC && tables.len() == 1,
        Frame::Change { .. } => false,
    }
}

fn is_expected_change(frame: &Frame) -> bool {
    match frame {
        Frame::Snapshot { .. } => false,
        Frame::Change { seq, deltas } => *seq == 1 && deltas.len() == 1,
    }
}

fn reads_snapshot(alloc: Global) -> bool {
    match read_frame(alloc, SNAPSHOT) {
        Ok(frame) => is_expected_snapshot(&frame),
        Err(_) => false,
    }
}

fn reads_change(alloc: Global) -> bool {
    match read_frame(alloc, CHANGE) {
        Ok(frame) => is_expected_change(&frame),
        Err(_) => false,
    }
}

// The body of the frame that a body gives.
fn written_again(alloc: Global, body: &[u8]) -> Result<ByteText, FrameFault> {
    let frame = read_frame(alloc, body)?;
    let mut out = ByteText::new(alloc);
    write_frame(alloc, &frame, &mut out)?;
    Ok(out)
}

fn is_written_again(alloc: Global, body: &[u8]) -> bool {
    match written_again(alloc, body) {
        Ok(out) => out.as_bytes() == body,
        Err(_) => false,
    }
}

fn is_bad(alloc: Global, body: &[u8]) -> bool {
    matches!(read_frame(alloc, body), Err(FrameFault::Bad))
}

fn are_bad(alloc: Global) -> bool {
    for body in BAD {
        if !is_bad(alloc, body) {
            return false;
        }
    }
    true
}

fn all_are_told(alloc: Global) -> bool {
    reads_snapshot(alloc)
        && reads_change(alloc)
        && is_written_again(alloc, SNAPSHOT)
        && is_written_again(alloc, CHANGE)
        && are_bad(alloc)
}

#[test]
fn bodies_are_read_and_written(rt: HostRuntime) {
    assert!(rt; all_are_told(rt.alloc()));
}
