use std::alloc::Global;
use std::test::*;
use wh_base::{ByteText, NoMemory, Numbers};
use wh_io::MemDisk;
use wh_store::{StoreFault, Which, both_empty, open_store};

// The store of `relation R(k int) key (k);` with no row: a frame of 65 bytes, and a closed mark.
const FILE: &[u8] = b"\x01\x00\x00\x00\x00\x00\x00\x00\x38\
\x01\x00\x00\x00\x00\x00\x00\x00\x01\x00\x00\x00\x00\x00\x00\x00\x00\
\x00\x00\x00\x1brelation R(k int) key (k);\n\x00\x00\x00\x01\x00\x00\x00\x00\x00";

fn disk_of(alloc: Global, content: &[u8]) -> Result<MemDisk, NoMemory> {
    MemDisk::new(
        alloc,
        ByteText::from_slice(alloc, content)?,
        200,
        20,
        Numbers::new(alloc),
    )
}

// The number of changes, the number of tables and the end of the journal, or the fault.
fn opened(alloc: Global, first: &[u8], second: &[u8]) -> Result<(u64, usize, u64), StoreFault> {
    let mut first = disk_of(alloc, first)?;
    let mut second = disk_of(alloc, second)?;
    let (warehouse, place) = open_store(alloc, &mut first, &mut second)?;
    Ok((warehouse.seq, warehouse.tables.len(), place.journal.end))
}

#[test]
fn a_loaded_store_is_opened(rt: HostRuntime) -> Result<(), Fail> {
    let alloc = rt.alloc();
    let mut longer = ByteText::from_slice(alloc, FILE)?;
    longer.append(&[7; 10])?;
    assert!(rt; opened(alloc, FILE, &[]) == Ok((0, 1, 65)));
    assert!(rt; opened(alloc, longer.as_bytes(), &[0]) == Ok((0, 1, 65)));
    assert!(rt; opened(alloc, &[7, 1, 1], FILE) == Ok((0, 1, 65)));
    assert!(rt; opened(alloc, &[], &[0]) == Err(StoreFault::NotLoaded));
    assert!(rt;
        opened(alloc, &FILE[..60], FILE)
            == Err(StoreFault::Damaged {
                which: Which::First,
                at: 0
            })
    );
    assert!(rt;
        opened(alloc, FILE, FILE)
            == Err(StoreFault::Damaged {
                which: Which::Second,
                at: u64::MAX
            })
    );
    Ok(())
}

#[test]
fn empty_files_are_told(rt: HostRuntime) -> Result<(), Fail> {
    let alloc = rt.alloc();
    let mut first = disk_of(alloc, &[7, 1, 1])?;
    let mut second = disk_of(alloc, &[1])?;
    let mut full = disk_of(alloc, FILE)?;
    assert!(rt; both_empty(&mut first, &mut second).ok() == Some(true));
    assert!(rt; both_empty(&mut first, &mut full).ok() == Some(false));
    Ok(())
}
