// Texts in which a piece is repeated.
use std::alloc::Global;
use wh_base::{ByteText, NoMemory};

// A text with a piece so many times between two others, and the line that it has.
pub(crate) struct Repeated<'a> {
    pub(crate) before: &'a [u8],
    pub(crate) piece: &'a [u8],
    pub(crate) count: usize,
    pub(crate) after: &'a [u8],
    pub(crate) line: &'a [u8],
}

fn append_times(text: &mut ByteText, piece: &[u8], count: usize) -> Result<(), NoMemory> {
    for _ in 0..count {
        text.append(piece)?;
    }
    Ok(())
}

pub(crate) fn text_of(alloc: Global, row: &Repeated<'_>) -> Result<ByteText, NoMemory> {
    let mut text = ByteText::from_slice(alloc, row.before)?;
    append_times(&mut text, row.piece, row.count)?;
    text.append(row.after)?;
    Ok(text)
}
