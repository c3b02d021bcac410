// A file of the file system that is opened when it is needed.
use crate::regular::open_regular;
use std::fs::{OpenFile, OpenOptions};
use std::io::{self, ErrorKind, Read, Seek, SeekFrom, Write};

/// A file under a path. Until a call must write, a missing file has no bytes, and none is made.
#[derive(Drop)]
pub(crate) struct LazyFile<R: std::rt::Files + Drop> {
    rt: R,
    path: String,
    file: Option<R::File>,
    is_writable: bool,
    // Whether the folder may have the file's name in memory alone.
    is_name_pending: bool,
}

// The folder in which a path stands.
fn folder_of(path: &str) -> &str {
    match path.rsplit_once('/') {
        Some(("", _)) => "/",
        Some((folder, _)) => folder,
        None => ".",
    }
}

// Opens a regular file for reading, and where it is to be written also for that, and then makes one that is missing.
fn open<R: std::rt::Files>(rt: &R, path: &str, writes: bool) -> io::Result<R::File> {
    let mut options = OpenOptions::new();
    options.read(true);
    options.write(writes);
    options.create(writes);
    open_regular(rt, path, &options)
}

impl<R: std::rt::Files + Drop> LazyFile<R> {
    pub(crate) fn new(rt: R, path: String) -> Self {
        LazyFile {
            rt,
            path,
            file: None,
            is_writable: false,
            is_name_pending: false,
        }
    }

    pub(crate) fn length(&mut self) -> io::Result<u64> {
        self.open_if_there()?;
        match &self.file {
            Some(file) => Ok(file.metadata()?.len()),
            None => Ok(0),
        }
    }

    pub(crate) fn read_at(&mut self, at: u64, into: &mut [u8]) -> io::Result<()> {
        self.open_if_there()?;
        match &mut self.file {
            Some(file) => {
                file.seek(SeekFrom::Start(at))?;
                file.read_exact(into)
            }
            None if into.is_empty() => Ok(()),
            None => Err(io::Error::from(ErrorKind::UnexpectedEof)),
        }
    }

    pub(crate) fn write_at(&mut self, at: u64, bytes: &[u8]) -> io::Result<()> {
        self.open_or_make()?;
        match &mut self.file {
            Some(file) => {
                file.seek(SeekFrom::Start(at))?;
                file.write_all(bytes)
            }
            None => Err(io::Error::from(ErrorKind::NotFound)),
        }
    }

    pub(crate) fn cut(&mut self, to: u64) -> io::Result<()> {
        self.open_or_make()?;
        match &self.file {
            Some(file) => file.set_len(to),
            None => Err(io::Error::from(ErrorKind::NotFound)),
        }
    }

    /// Waits until the file's bytes are on the disk, and its name where it may have been made.
    pub(crate) fn sync(&mut self) -> io::Result<()> {
        self.open_if_there()?;
        match &self.file {
            Some(file) => file.sync_all()?,
            None => return Ok(()),
        }
        if self.is_name_pending {
            let mut options = OpenOptions::new();
            options.read(true);
            let folder = options.open(&self.rt, folder_of(self.path.as_str()))?;
            folder.sync_all()?;
            self.is_name_pending = false;
        }
        Ok(())
    }

    fn open_if_there(&mut self) -> io::Result<()> {
        if self.file.is_some() {
            return Ok(());
        }
        match open(&self.rt, self.path.as_str(), false) {
            Ok(file) => self.file = Some(file),
            Err(error) if error.kind() == ErrorKind::NotFound => {}
            Err(error) => return Err(error),
        }
        Ok(())
    }

    fn open_or_make(&mut self) -> io::Result<()> {
        if self.is_writable {
            return Ok(());
        }
        self.file = Some(open(&self.rt, self.path.as_str(), true)?);
        self.is_writable = true;
        self.is_name_pending = true;
        Ok(())
    }
}
