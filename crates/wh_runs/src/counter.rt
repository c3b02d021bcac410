// A counter in two files: a small program, to see on it what the definitions say.
ghost use Rattle.std.specs.Prelude.{◌≡◌, length, IfOk, IfSome, is_err, false};
ghost use Rattle.wh_io.specs.Causes as counts;
ghost use Rattle.wh_io.specs.Causes.{IsCountedPair};
ghost use Rattle.wh_runs.specs.Answers.{Answers};
ghost use Rattle.wh_runs.specs.Asked.{AnswersQuestion, CountsBoth, Prints, ask_finish};
ghost use Rattle.wh_runs.specs.Counter.{ask, counter, counter_sound};
ghost use Rattle.wh_runs.specs.Disks.{both, form};
ghost use Rattle.wh_runs.specs.Opens.{AreUnwritten, IsUnwritten};
ghost use Rattle.wh_runs.specs.Outcome.{is_disk_fault, is_write_fault};

use crate::open::open_both;
use crate::program::Commands;
use wh_base::Failed;
use wh_io::{Disk, Files, Sink, write_all};

/// The commands of the counter.
pub struct Counter;

impl Commands for Counter {
    ghost program = { counter };

    ghost sound = { counter_sound };
}

/// Why a question has no answer.
pub enum NoAnswer {
    /// Neither file counts.
    NotCreated,
    WriteFault,
    DiskFault,
}

/// Prints what is counted, as one byte.
pub fn ask<F: Files, O: Sink, D: Disk>(
    files: &mut F,
    out: &mut O,
    first: &mut D,
    second: &mut D,
) -> Result<(), NoAnswer>
    ensures { Answers (form D.Disk) counter ask
        (record {
          before = record { files = files.old; held = F.held files.old; files_faults = F.faults files.old; out = O.taken out.old; out_faults = O.faults out.old; disks = both first.old second.old };
          after = record { files = files.new; held = F.held files.new; files_faults = F.faults files.new; out = O.taken out.new; out_faults = O.faults out.new; disks = both first.new second.new };
        })
        (ask_finish result) }
{
    answer(out, first, second)
}

fn answer<O: Sink, D: Disk>(out: &mut O, first: &mut D, second: &mut D) -> Result<(), NoAnswer>
    ensures answer { AnswersQuestion (form D.Disk) (both first.old second.old) (both first.new second.new) (O.taken out.old) (O.taken out.new) result }
    ensures unwritten { AreUnwritten (form D.Disk) (both first.old second.old) (both first.new second.new) }
    ensures out { counts.IsCounted (is_write_fault (ask_finish result)) (O.faults out.old) (O.faults out.new) }
    ensures disks { IsCountedPair (is_disk_fault (ask_finish result)) (D.faults first.old) (D.faults first.new) (D.faults second.old) (D.faults second.new) }
{
    match both_counted(first, second) {
        Ok(count) => print(out, count),
        Err(_) => Err(NoAnswer::DiskFault),
    }
}

fn print<O: Sink>(out: &mut O, count: u64) -> Result<(), NoAnswer>
    ensures printed { Prints (O.taken out.old) (O.taken out.new) count result }
    ensures no_disk { is_disk_fault (ask_finish result) ≡ false }
    ensures out { counts.IsCounted (is_write_fault (ask_finish result)) (O.faults out.old) (O.faults out.new) }
{
    if count == 0 {
        return Err(NoAnswer::NotCreated);
    }
    match write_all(out, &[(count % 256) as u8]) {
        Ok(()) => Ok(()),
        Err(_) => Err(NoAnswer::WriteFault),
    }
}

#[tactic(auto, using(crate::proofs::Unwritten::unwritten_then))]
pub(crate) fn both_counted<D: Disk>(first: &mut D, second: &mut D) -> Result<u64, Failed>
    ensures count { CountsBoth (form D.Disk) (both first.old second.old) (both first.new second.new) result }
    ensures unwritten { AreUnwritten (form D.Disk) (both first.old second.old) (both first.new second.new) }
    ensures cause { IsCountedPair (is_err result) (D.faults first.old) (D.faults first.new) (D.faults second.old) (D.faults second.new) }
{
    open_both(first, second)?;
    Ok(length_of(first)?.max(length_of(second)?))
}

fn length_of<D: Disk>(file: &mut D) -> Result<u64, Failed>
    ensures length { IfSome (D.content file.old) (λ bytes. IfOk result (λ n. n ≡ length bytes)) }
    ensures unwritten { IsUnwritten (form D.Disk) file.old file.new }
    ensures cause { counts.IsCounted (is_err result) (D.faults file.old) (D.faults file.new) }
{
    file.length()
}
