// The devices in memory, once through each call.
use super::*;
use std::alloc::Global;
use std::test::Fail;
use wh_base::{ByteText, Name, Names, NoMemory, Numbers, Texts};

fn numbers(alloc: Global, listed: &[u64]) -> Result<Numbers, NoMemory> {
    Ok(Numbers::from_vec(listed.to_vec(alloc)?))
}

fn text(alloc: Global, bytes: &[u8]) -> Result<ByteText, NoMemory> {
    let mut text = ByteText::new(alloc);
    text.append(bytes)?;
    Ok(text)
}

// A name, the most bytes to read, and what is read or why nothing is.
type Read<'a> = (&'a str, u64, Result<&'a [u8], FileFault>);

// The file `a` holds `text`, and the fourth read fails.
const READS: &[Read<'_>] = &[
    ("a", 4, Ok(b"text")),
    ("b", 4, Err(FileFault::Missing)),
    ("a", 3, Err(FileFault::TooLong)),
    ("a", 4, Err(FileFault::Failed)),
    ("a", 5, Ok(b"text")),
];

// The file `a` alone.
fn one_file(alloc: Global, fails: &[u64]) -> Result<Option<MemFiles>, NoMemory> {
    let mut names = Names::new(alloc);
    let mut contents = Texts::new(alloc);
    names.push(Name::from_vec(b"a".to_vec(alloc)?))?;
    contents.push(text(alloc, b"text")?)?;
    if names.len() != contents.len() {
        return Ok(None);
    }
    Ok(Some(MemFiles::new(names, contents, numbers(alloc, fails)?)))
}

fn is_read(alloc: Global, files: &mut MemFiles, read: &Read<'_>) -> bool {
    let (name, limit, told) = read;
    match (files.read(alloc, name, *limit), told) {
        (Ok(text), Ok(bytes)) => text.as_bytes() == *bytes,
        (Err(fault), Err(told)) => fault == *told,
        _ => false,
    }
}

fn are_read(alloc: Global, files: &mut MemFiles) -> bool {
    for read in READS {
        if !is_read(alloc, files, read) {
            return false;
        }
    }
    true
}

#[test]
fn files_are_read(rt: HostRuntime) -> Result<(), Fail> {
    let alloc = rt.alloc();
    match one_file(alloc, &[4])? {
        Some(mut files) => assert!(rt; are_read(alloc, &mut files)),
        None => assert!(rt; false, "no file"),
    }
    Ok(())
}

// Pieces, and how many bytes of each a sink takes that takes two at a time and five in all, and whose second call fails.
const PIECES: &[(&[u8], Option<usize>)] = &[
    (b"abc", Some(2)),
    (b"abc", None),
    (b"cde", Some(2)),
    (b"e", Some(1)),
    (b"f", None),
];

fn are_taken(sink: &mut MemSink) -> bool {
    for (piece, told) in PIECES {
        if piece.is_empty() || sink.write(piece).ok() != *told {
            return false;
        }
    }
    true
}

fn takes_parts(alloc: Global) -> Result<bool, NoMemory> {
    let mut sink = MemSink::new(alloc, 2, 5, numbers(alloc, &[2])?)?;
    Ok(are_taken(&mut sink) && sink.taken() == b"abcde".as_slice())
}

fn takes_all(alloc: Global) -> Result<bool, NoMemory> {
    let mut sink = MemSink::new(alloc, 2, 5, Numbers::new(alloc))?;
    Ok(write_all(&mut sink, b"abcde").is_ok() && sink.taken() == b"abcde".as_slice())
}

#[test]
fn a_sink_takes_a_part(rt: HostRuntime) -> Result<(), Fail> {
    assert!(rt; takes_parts(rt.alloc())?);
    assert!(rt; takes_all(rt.alloc())?);
    Ok(())
}

#[derive(Drop)]
enum Call<'a> {
    Length,
    Write(u64, &'a [u8]),
    Cut(u64),
    Sync,
}

// A call of a disk, whether it is answered, and the content after it and after a torn crash whose fill is `x`.
type Moment<'a> = (Call<'a>, bool, &'a [u8], &'a [u8]);

// The disk holds `0123`, and its fourth call fails: what that would have written is lost, and pending.
const MOMENTS: &[Moment<'_>] = &[
    (Call::Length, true, b"0123", b"0123"),
    (Call::Write(1, b"ab"), true, b"0ab3", b"0xx3"),
    (Call::Sync, true, b"0ab3", b"0ab3"),
    (Call::Write(4, b"cd"), false, b"0ab3", b"0ab3xx"),
    (Call::Cut(2), true, b"0a", b"0axxxx"),
];

fn is_answered(disk: &mut MemDisk, call: &Call<'_>) -> bool {
    let length = disk.content().len() as u64;
    match call {
        Call::Length => disk.length().ok() == Some(length),
        Call::Write(at, bytes) => *at <= length && disk.write_at(*at, bytes).is_ok(),
        Call::Cut(to) => *to <= length && disk.cut(*to).is_ok(),
        Call::Sync => disk.sync().is_ok(),
    }
}

fn is_left(alloc: Global, disk: &MemDisk, content: &[u8], torn: &[u8]) -> Result<bool, NoMemory> {
    let whole = disk.after_crash(alloc, b'x', false)?;
    let filled = disk.after_crash(alloc, b'x', true)?;
    Ok(disk.content() == content && whole.content() == content && filled.content() == torn)
}

fn all_are_left(alloc: Global, disk: &mut MemDisk) -> Result<bool, NoMemory> {
    for (call, told, content, torn) in MOMENTS {
        if is_answered(disk, call) != *told || !is_left(alloc, disk, content, torn)? {
            return Ok(false);
        }
    }
    Ok(true)
}

// Whether a byte of the disk is read, and counted.
fn is_byte_read(disk: &mut MemDisk, at: u64, byte: u8) -> bool {
    let mut into = [0u8; 1];
    at < disk.content().len() as u64
        && disk.read_at(at, &mut into).is_ok()
        && into[0] == byte
        && disk.bytes_read() == 1
}

fn is_kept(alloc: Global) -> Result<bool, NoMemory> {
    let content = text(alloc, b"0123")?;
    let mut disk = MemDisk::new(alloc, content, 10, 10, numbers(alloc, &[4])?)?;
    Ok(all_are_left(alloc, &mut disk)? && is_byte_read(&mut disk, 1, b'a'))
}

#[test]
fn a_crash_leaves_what_was_synced(rt: HostRuntime) -> Result<(), Fail> {
    assert!(rt; is_kept(rt.alloc())?);
    Ok(())
}
