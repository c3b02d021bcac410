// Files in memory.
ghost use Rattle.std.specs.Prelude.{◌≡◌, ℕ, ◌≤◌, true, List, length, Some, IfOk, is_err, not, position};
ghost use Rattle.std.specs.Str.{bytes_eq};
ghost use Rattle.wh_io.specs.Causes.{IsCounted};
ghost use Rattle.wh_io.specs.Files.{Reads, is_read_fault};
ghost use Rattle.std.specs.Option.{option_copied};
ghost use Rattle.wh_io.specs.Memory.{content_of, text_of, goes_well, after_call};

use crate::plan::FaultPlan;
use crate::{FileFault, Files};
use std::alloc::Global;
use std::marker::Model;
use wh_base::{ByteText, Duplicate, Name, Names, Numbers, Texts};

/// Files in memory. The first of two equal names counts.
#[derive(Drop)]
pub struct MemFiles {
    names: Names,
    contents: Texts,
    plan: FaultPlan,
}

impl Model for MemFiles {
    ghost use Rattle.wh_io.specs.Memory.{FilesInMemory};

    ghost Value = { FilesInMemory };

    ghost view = { λ f. record { names = f.names; contents = f.contents; plan = f.plan } };
}

fn place_of(names: &[Name], name: &[u8]) -> Option<usize>
    ensures { result ≡ position (λ held. bytes_eq held name.now) names.now }
{
    names.iter().position(|held| held.as_slice() == name)
}

impl MemFiles {
    /// Files of these names with these contents. The calls of the listed numbers fail, the first being 1.
    pub fn new(names: Names, contents: Texts, fails: Numbers) -> Self
        requires { length names ≡ length contents }
        ensures { result ≡ record { names = names; contents = contents; plan = record { fails = fails; calls = 0; faults = 0 } } }
    {
        MemFiles {
            names,
            contents,
            plan: FaultPlan::new(fails),
        }
    }

    fn find(&self, name: &[u8]) -> Option<&ByteText>
        ensures { option_copied result ≡ text_of self.now name.now }
    {
        match place_of(self.names.as_slice(), name) {
            Some(place) => self.contents.get(place),
            None => None,
        }
    }
}

impl Files for MemFiles {
    ghost held = { λ f. Some (content_of f) };

    ghost faults = { λ f. f.plan.faults };

    /// Fails exactly at the listed calls.
    fn read(&mut self, alloc: Global, name: &str, limit: u64) -> Result<ByteText, FileFault>
        ensures answer { Reads (content_of self.old name.now) limit result }
        ensures within { IfOk result (λ text. length text.bytes ≤ limit) }
        ensures same { content_of self.new ≡ content_of self.old }
        ensures cause { IsCounted (is_read_fault result) self.old.plan.faults self.new.plan.faults }
        ensures fails { is_read_fault result ≡ not (goes_well self.old.plan true) }
        ensures after { self.new ≡ record self.old { plan = after_call self.old.plan true } }
    {
        if self.plan.admit(true).is_err() {
            return Err(FileFault::Failed);
        }
        let Some(text) = self.find(name.as_bytes()) else {
            return Err(FileFault::Missing);
        };
        if text.len() as u64 > limit {
            return Err(FileFault::TooLong);
        }
        Ok(text.copy(alloc)?)
    }
}
