// The line that `refresh` prints for a file.
ghost use Rattle.std.specs.Prelude.{◌≡◌, ◌+◌, ◌≤◌, ◌++◌, IfOk, OnOk, codes, decimal, length};
ghost use Rattle.wh_base.specs.Lines.{line};
ghost use Rattle.wh_csv.specs.Words.{cause_words};
ghost use Rattle.wh_command.specs.Refresh.{IsRefreshStatus, deleted_count, file_text, inserted_count, record_rejection};
ghost use Rattle.wh_command.specs.RefreshSteps.{IsReport, TellsRefusal, counts_words};

use crate::status::Status;
use crate::stop::Stop;
use crate::words;
use itoa::Buffer;
use std::alloc::Global;
use wh_base::{ByteText, Bytes, Delta, NoMemory};
use wh_csv::CsvCause;
use wh_refresh::RefreshFault;
use wh_schema::Spec;
use wh_store::NetChange;

// The words of an accepted change and its five numbers of at most 40 digits each take no more.
const ROOM: usize = 256;

/// What one file came to: its status, and its line.
#[derive(Drop)]
pub struct Report {
    pub status: Status,
    pub line: Bytes,
}

fn begin_line(alloc: Global, name: &str) -> Result<ByteText, NoMemory>
    ensures { IfOk result (λ line. line.bytes ≡ name.now ++ codes ": ") }
{
    let mut out = ByteText::from_slice(alloc, name.as_bytes())?;
    out.append(b": ")?;
    Ok(out)
}

/// `NAME: LABEL WORDS`, of a file that is not accepted. The label brings its blank.
pub fn rejected(
    alloc: Global,
    name: &str,
    status: Status,
    label: &[u8],
    words: &[u8],
) -> Result<Report, NoMemory>
    ensures status { IfOk result (λ report. report.status ≡ status) }
    ensures line { IfOk result (λ report. report.line ≡ file_text name.now (label.now ++ words.now)) }
{
    let mut out = begin_line(alloc, name)?;
    out.append(label)?;
    out.append(words)?;
    out.push(b'\n')?;
    Ok(Report {
        status,
        line: out.into_bytes(),
    })
}

/// `NAME: record N: WORDS`, or that there are too many records.
pub fn bad_record(alloc: Global, name: &str, at: u64, cause: CsvCause) -> Result<Report, NoMemory>
    ensures report { IfOk result (IsReport name.now (record_rejection at cause)) }
    ensures done { IfOk result (λ report. IsRefreshStatus report.status) }
{
    match cause {
        CsvCause::TooManyRecords => rejected(alloc, name, Status::Limit, b"limit, ", b"records"),
        cause => {
            let words = record_words(alloc, at, cause)?;
            rejected(alloc, name, Status::BadInput, b"record ", words.as_slice())
        }
    }
}

fn record_words(alloc: Global, at: u64, cause: CsvCause) -> Result<Bytes, NoMemory>
    ensures { IfOk result (λ words. words ≡ decimal at ++ codes ": " ++ cause_words cause) }
{
    let mut buffer = Buffer::new();
    let mut out = ByteText::from_slice(alloc, buffer.format(at).as_bytes())?;
    out.append(b": ")?;
    out.append(cause.words().as_bytes())?;
    Ok(out.into_bytes())
}

/// The line of a change that was refused. A fault of a disk and want of memory have none.
pub fn refused(alloc: Global, name: &str, spec: &Spec, fault: RefreshFault) -> Result<Report, Stop>
    ensures tells { TellsRefusal name.now spec.now fault result }
    ensures done { IfOk result (λ report. IsRefreshStatus report.status) }
{
    match fault {
        RefreshFault::Broken(broken) => {
            let words = words::broken(alloc, spec, &broken)?;
            Ok(rejected(alloc, name, Status::Refused, b"refused, ", words.as_slice())?)
        }
        RefreshFault::RowLimit { table } => {
            let words = words::rows_limit(alloc, spec, table as usize)?;
            Ok(over_limit(alloc, name, words.as_slice())?)
        }
        RefreshFault::SequenceLimit => Ok(over_limit(alloc, name, b"sequence number")?),
        RefreshFault::FileLimit => Ok(over_limit(alloc, name, b"warehouse file")?),
        RefreshFault::DiskFault => Err(Stop::DiskFault),
        RefreshFault::NoMemory => Err(Stop::NoMemory),
    }
}

/// `NAME: limit, WORDS`.
pub fn over_limit(alloc: Global, name: &str, words: &[u8]) -> Result<Report, NoMemory>
    ensures status { IfOk result (λ report. report.status ≡ Status.Limit) }
    ensures line { IfOk result (λ report. report.line ≡ file_text name.now (codes "limit, " ++ words.now)) }
{
    rejected(alloc, name, Status::Limit, b"limit, ", words)
}

/// The front of the line of an accepted change, with room for the rest: no memory is wanted once the change is made.
pub fn roomy_line(alloc: Global, name: &str) -> Result<ByteText, NoMemory>
    ensures bytes { IfOk result (λ line. line.bytes ≡ name.now ++ codes ": ") }
    ensures room { IfOk result (λ line. 256 ≤ line.spare) }
{
    let mut out = begin_line(alloc, name)?;
    out.reserve(ROOM)?;
    Ok(out)
}

/// `NAME: refresh N, sources -D +I, stored -d +i`, behind its front.
pub fn accepted(mut out: ByteText, seq: u64, net: &NetChange) -> Report
    requires room { 256 ≤ out.spare }
    ensures status { result.status ≡ Status.Ok }
    ensures line { result.line ≡ line (((out.bytes ++ (codes "refresh " ++ decimal seq)) ++ counts_words (codes ", sources") net.now.source) ++ counts_words (codes ", stored") net.now.stored) }
{
    out.put(b"refresh ");
    put_count(&mut out, seq as u128);
    put_counts(&mut out, b", sources", net.source.as_slice());
    put_counts(&mut out, b", stored", net.stored.as_slice());
    out.put(b"\n");
    Report {
        status: Status::Ok,
        line: out.into_bytes(),
    }
}

// `LABEL -D +I`: the rows that left and entered.
fn put_counts(out: &mut ByteText, label: &[u8], deltas: &[Delta])
    requires room { length label.now + 84 ≤ out.old.spare }
    ensures bytes { out.new.bytes ≡ out.old.bytes ++ counts_words label.now deltas.now }
    ensures spare { out.old.spare ≤ out.new.spare + (length label.now + 84) }
{
    out.put(label);
    out.put(b" -");
    put_count(out, deleted_count(deltas));
    out.put(b" +");
    put_count(out, inserted_count(deltas));
}

fn put_count(out: &mut ByteText, count: u128)
    requires { 40 ≤ out.old.spare }
    ensures bytes { out.new.bytes ≡ out.old.bytes ++ decimal count }
    ensures spare { out.old.spare ≤ out.new.spare + 40 }
{
    let mut buffer = Buffer::new();
    out.put(buffer.format(count).as_bytes());
}

#[tactic(auto, using(crate::proofs::RefreshLines::deleted_more, crate::proofs::RefreshLines::deleted_all))]
fn deleted_count(deltas: &[Delta]) -> u128
    ensures { result ≡ deleted_count deltas.now }
{
    let mut count: u128 = 0;
    for delta in deltas {
        count += delta.deleted.len() as u128;
    }
    count
}

#[tactic(auto, using(crate::proofs::RefreshLines::inserted_more, crate::proofs::RefreshLines::inserted_all))]
fn inserted_count(deltas: &[Delta]) -> u128
    ensures { result ≡ inserted_count deltas.now }
{
    let mut count: u128 = 0;
    for delta in deltas {
        count += delta.inserted.len() as u128;
    }
    count
}
