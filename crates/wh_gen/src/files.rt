// The texts of a case as files that are read by name.
ghost use Rattle.std.specs.Prelude.{◌≡◌, map, string_bytes, IfOk, Some};
ghost use Rattle.std.specs.Option.{option_copied, option_map};
ghost use Rattle.wh_gen.specs.Files.{case_held, change_names, dump_names, place_in};
ghost use Rattle.wh_gen.specs.Texts.{texts_of};

use crate::make::Case;
use std::alloc::Global;
use wh_base::{ByteText, Duplicate, NoMemory};
use wh_io::{FileFault, Files};

/// A case as files: `spec`, `case/Dept.csv`, `case/Emp.csv`, `case/Task.csv`, and `change-1` to `change-10`. No read of
/// them fails, but for want of memory.
#[derive(Debug, Drop)]
pub struct CaseFiles {
    pub case: Case,
}

fn dump_place(name: &str) -> Option<usize>
    ensures { result ≡ place_in dump_names name.now }
{
    match name {
        "case/Dept.csv" => Some(0),
        "case/Emp.csv" => Some(1),
        "case/Task.csv" => Some(2),
        _ => None,
    }
}

fn change_place(name: &str) -> Option<usize>
    ensures { result ≡ place_in change_names name.now }
{
    match name {
        "change-1" => Some(0),
        "change-2" => Some(1),
        "change-3" => Some(2),
        "change-4" => Some(3),
        "change-5" => Some(4),
        "change-6" => Some(5),
        "change-7" => Some(6),
        "change-8" => Some(7),
        "change-9" => Some(8),
        "change-10" => Some(9),
        _ => None,
    }
}

impl CaseFiles {
    fn find(&self, name: &str) -> Option<&ByteText>
        ensures { option_map (λ text. text.bytes) (option_copied result) ≡ case_held (texts_of self.now.case) name.now }
    {
        if name == "spec" {
            return Some(&self.case.spec);
        }
        match (dump_place(name), change_place(name)) {
            (Some(place), _) => self.case.dumps.get(place),
            (None, Some(place)) => self.case.changes.get(place),
            (None, None) => None,
        }
    }
}

impl Files for CaseFiles {
    ghost held = { λ files. Some (case_held (texts_of files.case)) };

    ghost faults = { λ _. 0 };

    fn read(&mut self, alloc: Global, name: &str, limit: u64) -> Result<ByteText, FileFault> {
        let Some(text) = self.find(name) else {
            return Err(FileFault::Missing);
        };
        if text.len() as u64 > limit {
            return Err(FileFault::TooLong);
        }
        Ok(text.copy(alloc)?)
    }
}

/// The names of the change texts, in the order in which they are taken.
pub fn change_names(alloc: Global) -> Result<Vec<String>, NoMemory>
    ensures { IfOk result (λ names. map string_bytes names.items ≡ change_names) }
{
    let mut names = Vec::new(alloc);
    for done in 0..10_u32 {
        names.push(format!(in alloc; "change-{}", done + 1)?)?;
    }
    Ok(names)
}
