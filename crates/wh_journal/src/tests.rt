use super::*;
use std::alloc::Global;
use std::test::*;
use wh_base::{ByteText, NoMemory, Numbers};
use wh_io::{Disk, MemDisk};

// A frame of 56 bytes, and a closed mark.
const FILE: &[u8] = b"\x01\x00\x00\x00\x00\x00\x00\x00\x38\
\x01\x00\x00\x00\x00\x00\x00\x00\x01\x00\x00\x00\x00\x00\x00\x00\x00\
\x00\x00\x00\x1brelation R(k int) key (k);\n\x00\x00\x00\x01\x00\x00\x00\x00\x00";

const CHANGE: [u8; 31] = [
    2, 0, 0, 0, 0, 0, 0, 0, 1, 0, 0, 0, 1, 0, 0, 0, 0, 0, 0, 0, 1, 1, 1, 0, 0, 0, 0, 0, 0, 0, 5,
];

fn disk_of(alloc: Global, content: &[u8], fails: Numbers) -> Result<MemDisk, NoMemory> {
    MemDisk::new(alloc, ByteText::from_slice(alloc, content)?, 200, 20, fails)
}

// The numbers of the calls from one on up to the seventh.
fn from_call(alloc: Global, first: u64) -> Result<Numbers, NoMemory> {
    let mut fails = Numbers::new(alloc);
    for call in first..9 {
        fails.push(call)?;
    }
    Ok(fails)
}

// Appends the change. The recovery before it makes four calls of the disk, and so does the append.
fn append_change(alloc: Global, disk: &mut MemDisk) -> Result<Option<Journal>, JournalFault> {
    let Found::Frames {
        bodies: _bodies,
        mut journal,
    } = recover(alloc, disk)?
    else {
        return Ok(None);
    };
    let framed = frame(alloc, &ByteText::from_slice(alloc, &CHANGE)?)?;
    if !journal.fits(&framed) {
        return Ok(None);
    }
    journal.tidy(disk)?;
    journal.append(disk, &framed)?;
    Ok(Some(journal))
}

// How many bodies are recovered after a crash that fills what was pending with open marks.
fn bodies_after_crash(alloc: Global, disk: &MemDisk) -> Result<usize, JournalFault> {
    let mut left = disk.after_crash(alloc, 1, true)?;
    match recover(alloc, &mut left)? {
        Found::Empty => Ok(0),
        Found::Frames {
            bodies,
            journal: _journal,
        } => Ok(bodies.len()),
    }
}

// Whether the first so many bytes of the file with both frames give what they are to give.
fn meets_prefix(alloc: Global, content: &[u8], len: usize) -> Result<bool, NoMemory> {
    let mut disk = disk_of(alloc, content, Numbers::new(alloc))?;
    let found = recover(alloc, &mut disk);
    Ok(match found {
        Ok(Found::Empty) => len < 2,
        Ok(Found::Frames { bodies, journal }) => {
            len == 106 && bodies.len() == 2 && journal.end == 105
        }
        Err(JournalFault::Damaged { at }) => {
            let wrong = if len < 65 {
                0
            } else if len < 105 {
                65
            } else {
                105
            };
            2 <= len && len < 106 && at == wrong
        }
        Err(_) => false,
    })
}

#[test]
fn frames_are_appended_and_found(rt: HostRuntime) -> Result<(), Fail> {
    let alloc = rt.alloc();
    let mut disk = disk_of(alloc, FILE, Numbers::new(alloc))?;
    assert_eq!(rt; bodies_after_crash(alloc, &disk).ok(), Some(1));
    let journal = append_change(alloc, &mut disk).ok();
    assert!(rt;
        journal
            == Some(Some(Journal {
                end: 105,
                length: 106
            }))
    );
    assert_eq!(rt; disk.content().len(), 106);
    assert_eq!(rt; disk.bytes_read(), 66);
    assert!(rt; disk.content()[65] == 1);
    assert!(rt; &disk.content()[74..105] == CHANGE.as_slice());
    for len in 0..107 {
        assert!(rt; meets_prefix(alloc, &disk.content()[..len], len)?);
    }
    let cleared = clear(&mut disk).ok();
    assert!(rt; cleared == Some(Journal { end: 0, length: 1 }));
    assert!(rt; disk.content() == [0].as_slice());
    Ok(())
}

#[test]
fn a_crash_leaves_a_frame_whole_or_out(rt: HostRuntime) -> Result<(), Fail> {
    let alloc = rt.alloc();
    for (first, bodies) in [(4, 1), (5, 1), (6, 1), (7, 2), (8, 2)] {
        let mut disk = disk_of(alloc, FILE, from_call(alloc, first)?)?;
        assert!(rt; append_change(alloc, &mut disk).is_err());
        assert_eq!(rt; bodies_after_crash(alloc, &disk).ok(), Some(bodies));
    }
    Ok(())
}

#[test]
fn no_more_than_the_first_byte_of_an_empty_file_is_read(rt: HostRuntime) -> Result<(), Fail> {
    let alloc = rt.alloc();
    let mut disk = disk_of(alloc, &[0; 64], Numbers::new(alloc))?;
    assert!(rt; matches!(recover(alloc, &mut disk), Ok(Found::Empty)));
    assert_eq!(rt; disk.bytes_read(), 1);
    Ok(())
}
