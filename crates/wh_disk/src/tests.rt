// Real files, once through each call.
use super::*;
use std::fs;
use std::io::{self, ErrorKind, Write};
use std::test::Fail;
use wh_io::{Disk, FileFault, Files, Sink, write_all};

const PATH: &str = "real_disk_test.wh";

#[test]
fn a_file_is_made_written_and_read(rt: HostRuntime) -> Result<(), Fail> {
    let alloc = rt.alloc();
    let _ = fs::remove_file(&rt, PATH);
    let mut disk = RealDisk::new(rt, String::from_str(alloc, PATH)?);
    assert_eq!(rt; disk.length().ok(), Some(0));
    assert!(rt; disk.sync().is_ok());
    assert!(rt; disk.read_at(0, &mut [0u8; 1]).is_err());
    assert!(rt; fs::metadata(&rt, PATH).is_err());
    assert!(rt; disk.write_at(0, b"0123").is_ok());
    assert!(rt; disk.sync().is_ok());
    assert!(rt; disk.write_at(3, b"ab").is_ok());
    assert!(rt; disk.cut(4).is_ok());
    assert!(rt; disk.sync().is_ok());
    let mut again = RealDisk::new(rt, String::from_str(alloc, PATH)?);
    assert_eq!(rt; again.length().ok(), Some(4));
    let mut into = [0u8; 2];
    assert!(rt; again.read_at(2, &mut into).is_ok());
    assert_eq!(rt; into, [b'2', b'a']);
    assert!(rt; again.read_at(3, &mut into).is_err());

    let mut files = RealFiles::new(rt);
    let text = files.read(alloc, PATH, 4).map_err(|_| "not read")?;
    assert_eq!(rt; text.as_bytes(), b"012a".as_slice());
    assert_eq!(rt; files.read(alloc, PATH, 3).err(), Some(FileFault::TooLong));
    assert_eq!(rt; files.read(alloc, ".", 4).err(), Some(FileFault::Failed));
    let below = format!(in alloc; "{PATH}/a")?;
    assert_eq!(rt; files.read(alloc, &below, 4).err(), Some(FileFault::Failed));
    fs::remove_file(&rt, PATH).map_err(|_| "not removed")?;
    assert_eq!(rt; files.read(alloc, PATH, 4).err(), Some(FileFault::Missing));
    let mut folder = RealDisk::new(rt, String::from_str(alloc, ".")?);
    assert!(rt; folder.length().is_err());
    Ok(())
}

// A writer that takes two bytes at once. Its second call is interrupted, and its fourth one fails.
#[derive(Drop)]
struct Halting {
    calls: u32,
    taken: Vec<u8>,
}

impl Write for Halting {
    fn write(&mut self, bytes: &[u8]) -> io::Result<usize> {
        self.calls = self.calls.saturating_add(1);
        match self.calls {
            2 => Err(io::Error::from(ErrorKind::Interrupted)),
            4 => Err(io::Error::from(ErrorKind::StorageFull)),
            _ => {
                let count = bytes.len().min(2);
                self.taken.extend_from_slice(&bytes[..count])?;
                Ok(count)
            }
        }
    }

    fn flush(&mut self) -> io::Result<()> {
        Ok(())
    }
}

#[test]
fn a_writer_gets_each_byte_once(rt: HostRuntime) {
    let mut writer = Halting {
        calls: 0,
        taken: Vec::new(rt.alloc()),
    };
    let mut sink = RealSink::new(&mut writer);
    assert!(rt; write_all(&mut sink, b"abcd").is_ok());
    assert!(rt; sink.write(b"ef").is_err());
    assert!(rt; write_all(&mut sink, b"ef").is_ok());
    let _ = sink;
    assert_eq!(rt; writer.taken.as_slice(), b"abcdef".as_slice());
}

#[test]
fn a_full_writer_is_a_fault(rt: HostRuntime) {
    let mut room = [0u8; 3];
    let mut sink = RealSink::new(room.as_mut_slice());
    assert!(rt; write_all(&mut sink, b"abc").is_ok());
    assert!(rt; sink.write(b"d").is_err());
    let _ = sink;
    assert_eq!(rt; room, [b'a', b'b', b'c']);
}
