// Why a command stopped, and how that is told.
ghost use Rattle.std.specs.Prelude.{◌≡◌, ◌++◌, OnOk, OnErr, is_err};
ghost use Rattle.wh_base.specs.Lines.{line};
ghost use Rattle.wh_io.specs.Causes.{IsCounted};
ghost use Rattle.wh_io.specs.Sink.{gained, GainsPrefix};
ghost use Rattle.wh_command.specs.Stop.{status_of, line_of, unwritten, IsTold};

use crate::status::Status;
use wh_base::{Bytes, Failed, NoMemory};
use wh_io::{Sink, write_all};

/// What stops a command before its end. The words are those of its line.
#[derive(Drop)]
pub enum Stop {
    /// The sources break a constraint.
    Refused(Bytes),
    /// The words name no command.
    Usage,
    /// The specification is outside its grammar, breaks a rule, or has a relation with too many pieces.
    BadSpec(Bytes),
    /// A dump is outside its grammar, or a word is no relation's name.
    BadInput(Bytes),
    /// A query text is outside its grammar or breaks a rule.
    BadQuery(Bytes),
    /// A file could not be read.
    ReadFault(Bytes),
    WriteFault,
    DiskFault,
    /// A store is needed, and both of its files are empty.
    NotLoaded,
    /// A file of the store is not empty.
    AlreadyLoaded,
    /// A file of the store is outside its format.
    Damaged(Bytes),
    /// A quantity passes its limit.
    Limit(Bytes),
    NoMemory,
    /// A file is not held.
    NoFile(Bytes),
}

impl From<NoMemory> for Stop {
    ghost use Rattle.wh_command.specs.declared.stop.Stop.TheVariants.{NoMemory as out_of_memory};

    ghost from_gives = { λ _ stop. stop ≡ out_of_memory };

    fn from(_: NoMemory) -> Self {
        Stop::NoMemory
    }
}

const USAGE: &[u8] =
    b"usage: whc STORE COMMAND\n  show SPEC DIR\n  plan SPEC\n  load SPEC DIR\n  refresh FILE..\n  query TEXT\n  dump RELATION\n  audit RELATION FILE\n  report\n  make NUMBER SIZE\n";

impl Stop {
    pub fn status(&self) -> Status
        ensures { result ≡ status_of self.now }
    {
        match self {
            Stop::Refused(_) => Status::Refused,
            Stop::Usage => Status::Usage,
            Stop::BadSpec(_) => Status::BadSpec,
            Stop::BadInput(_) | Stop::BadQuery(_) => Status::BadInput,
            Stop::ReadFault(_) => Status::ReadFault,
            Stop::WriteFault => Status::WriteFault,
            Stop::DiskFault => Status::DiskFault,
            Stop::NotLoaded => Status::NotLoaded,
            Stop::AlreadyLoaded => Status::AlreadyLoaded,
            Stop::Damaged(_) => Status::Damaged,
            Stop::Limit(_) => Status::Limit,
            Stop::NoMemory => Status::NoMemory,
            Stop::NoFile(_) => Status::NoFile,
        }
    }

    /// Writes the line of this stop.
    pub fn write_line<E: Sink>(&self, err: &mut E) -> Result<(), Failed>
        ensures ok { OnOk result (E.taken err.new ≡ gained (E.taken err.old) (line_of self.now)) }
        ensures err { OnErr result (GainsPrefix (E.taken err.old) (E.taken err.new) (line_of self.now)) }
        ensures cause { IsCounted (is_err result) (E.faults err.old) (E.faults err.new) }
    {
        match self {
            Stop::Refused(words) => write_words(err, b"refused: ", words),
            Stop::Usage => write_all(err, USAGE),
            Stop::BadSpec(words) => write_words(err, b"spec: ", words),
            Stop::BadInput(words) => write_words(err, b"input: ", words),
            Stop::BadQuery(words) => write_words(err, b"query: ", words),
            Stop::ReadFault(file) => write_words(err, b"read fault: ", file),
            Stop::WriteFault => write_all(err, b"write fault\n"),
            Stop::DiskFault => write_all(err, b"disk fault\n"),
            Stop::NotLoaded => write_all(err, b"not loaded\n"),
            Stop::AlreadyLoaded => write_all(err, b"already loaded\n"),
            Stop::Damaged(words) => write_words(err, b"damaged: ", words),
            Stop::Limit(words) => write_words(err, b"limit: ", words),
            Stop::NoMemory => write_all(err, b"no memory\n"),
            Stop::NoFile(file) => write_words(err, b"no file: ", file),
        }
    }
}

// No memory is taken to tell a stop, so a line goes out in three pieces.
fn write_words<E: Sink>(err: &mut E, label: &[u8], words: &Bytes) -> Result<(), Failed>
    ensures ok { OnOk result (E.taken err.new ≡ gained (E.taken err.old) (label.now ++ line words.now)) }
    ensures err { OnErr result (GainsPrefix (E.taken err.old) (E.taken err.new) (label.now ++ line words.now)) }
    ensures cause { IsCounted (is_err result) (E.faults err.old) (E.faults err.new) }
{
    write_three(err, label, words.as_slice(), b"\n")
}

fn write_three<E: Sink>(err: &mut E, first: &[u8], second: &[u8], last: &[u8]) -> Result<(), Failed>
    ensures ok { OnOk result (E.taken err.new ≡ gained (E.taken err.old) (first.now ++ second.now ++ last.now)) }
    ensures err { OnErr result (GainsPrefix (E.taken err.old) (E.taken err.new) (first.now ++ second.now ++ last.now)) }
    ensures cause { IsCounted (is_err result) (E.faults err.old) (E.faults err.new) }
{
    write_all(err, first)?;
    write_all(err, second)?;
    write_all(err, last)
}

/// Tells of the stop on `err`, and gives the status to end with.
pub fn tell<E: Sink>(stop: &Stop, err: &mut E) -> Status
    ensures { IsTold stop.now (E.taken err.old) (E.taken err.new) (E.faults err.old) (E.faults err.new) result }
{
    match stop.write_line(err) {
        Ok(()) => stop.status(),
        Err(Failed) => unwritten(stop.status()),
    }
}

// The status where the line of this one could not be written.
fn unwritten(status: Status) -> Status
    ensures { result ≡ unwritten status }
{
    match status {
        Status::ReadFault | Status::WriteFault | Status::DiskFault | Status::NoMemory => status,
        _ => Status::WriteFault,
    }
}
