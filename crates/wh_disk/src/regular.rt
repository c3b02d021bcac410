// Files that are opened only where they are regular ones.
use std::fs::{self, OpenFile, OpenOptions};
use std::io::{self, ErrorKind};

fn not_regular() -> io::Error {
    io::Error::from(ErrorKind::InvalidInput)
}

/// Opens a regular file. What stands there is looked at first, since the opening of a pipe without a writer does not
/// return, and again once it is open, since another one may stand there by then.
pub(crate) fn open_regular<R: std::rt::Files>(
    rt: &R,
    path: &str,
    options: &OpenOptions,
) -> io::Result<R::File> {
    match fs::metadata(rt, path) {
        Ok(found) if !found.is_file() => return Err(not_regular()),
        Err(error) if error.kind() != ErrorKind::NotFound => return Err(error),
        _ => {}
    }
    let file = options.open(rt, path)?;
    if file.metadata()?.is_file() {
        Ok(file)
    } else {
        Err(not_regular())
    }
}
