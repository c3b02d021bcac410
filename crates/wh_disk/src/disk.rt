// A file of the file system that is read and written at any place.
ghost use Rattle.std.specs.Prelude.{◌≡◌};

use crate::faults::counted;
use crate::lazy_file::LazyFile;
use wh_base::Failed;
use wh_io::Disk;

/// The file under a path. It is made by the first call that must write. Until then a missing file has length 0, and
/// its sync is Ok.
#[derive(Drop)]
pub struct RealDisk<R: std::rt::Files + Drop> {
    file: LazyFile<R>,
    faults: u64,
    reads: u64,
}

impl<R: std::rt::Files + Drop> RealDisk<R> {
    pub fn new(rt: R, path: String) -> Self
        ensures faults { ⟦<RealDisk<R> as Disk>⟧.faults result ≡ 0 }
        ensures reads { ⟦<RealDisk<R> as Disk>⟧.reads result ≡ 0 }
    {
        RealDisk {
            file: LazyFile::new(rt, path),
            faults: 0,
            reads: 0,
        }
    }
}

impl<R: std::rt::Files + Drop> Disk for RealDisk<R> {
    ghost use Rattle.std.specs.Prelude.{None};

    ghost content = { λ _. None };

    ghost faults = { λ d. d.faults };

    ghost reads = { λ d. d.reads };

    ghost images = { λ _ _. ⊥ };

    ghost moment = { λ _. 0 };

    ghost images_since = { λ _ _ _. ⊥ };

    ghost content_is_left = { λ _. tt };

    ghost counts_now = { λ _ _ _ _ left. left };

    ghost only_now = { λ _ _ left. left };

    fn length(&mut self) -> Result<u64, Failed> {
        counted(&mut self.faults, self.file.length())
    }

    fn read_at(&mut self, at: u64, into: &mut [u8]) -> Result<(), Failed> {
        counted(&mut self.faults, self.file.read_at(at, into))?;
        self.reads = self.reads.saturating_add(into.len() as u64);
        Ok(())
    }

    fn write_at(&mut self, at: u64, bytes: &[u8]) -> Result<(), Failed> {
        counted(&mut self.faults, self.file.write_at(at, bytes))
    }

    fn cut(&mut self, to: u64) -> Result<(), Failed> {
        counted(&mut self.faults, self.file.cut(to))
    }

    fn sync(&mut self) -> Result<(), Failed> {
        counted(&mut self.faults, self.file.sync())
    }
}
