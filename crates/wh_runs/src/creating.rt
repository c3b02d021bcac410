// The counter is created: a command that writes in place.
ghost use Rattle.std.specs.Prelude.{◌≡◌, false};
ghost use Rattle.wh_io.specs.Causes as counts;
ghost use Rattle.wh_io.specs.Causes.{IsCountedPair};
ghost use Rattle.wh_runs.specs.Answers.{Answers};
ghost use Rattle.wh_runs.specs.Counter.{counter, create};
ghost use Rattle.wh_runs.specs.Created.{HasByte, IsBegun, TellsLine, WritesByte, create_finish};
ghost use Rattle.wh_runs.specs.Disks.{both, form};
ghost use Rattle.wh_runs.specs.Outcome.{is_disk_fault, is_refused, is_write_fault};

use crate::counter::both_counted;
use wh_base::Failed;
use wh_io::{Disk, Files, Sink, write_all, write_settled};

/// Why the counter was not created.
pub enum NotMade {
    /// Something is counted already.
    CreatedBefore,
    WriteFault,
    DiskFault,
}

/// Begins to count, where nothing is counted.
pub fn create<F: Files, O: Sink, D: Disk>(
    files: &mut F,
    out: &mut O,
    first: &mut D,
    second: &mut D,
) -> Result<(), NotMade>
    ensures { Answers (form D.Disk) counter create
        (record {
          before = record { files = files.old; held = F.held files.old; files_faults = F.faults files.old; out = O.taken out.old; out_faults = O.faults out.old; disks = both first.old second.old };
          after = record { files = files.new; held = F.held files.new; files_faults = F.faults files.new; out = O.taken out.new; out_faults = O.faults out.new; disks = both first.new second.new };
        })
        (create_finish result) }
{
    begin(out, first, second)
}

fn begin<O: Sink, D: Disk>(out: &mut O, first: &mut D, second: &mut D) -> Result<(), NotMade>
    ensures begun { IsBegun (form D.Disk) (both first.old second.old) (both first.new second.new) result }
    ensures told { TellsLine (O.taken out.old) (O.taken out.new) result }
    ensures out { counts.IsCounted (is_write_fault (create_finish result)) (O.faults out.old) (O.faults out.new) }
    ensures disks { IsCountedPair (is_disk_fault (create_finish result)) (D.faults first.old) (D.faults first.new) (D.faults second.old) (D.faults second.new) }
{
    match both_counted(first, second) {
        Ok(0) => write_first(out, first),
        Ok(_) => Err(NotMade::CreatedBefore),
        Err(_) => Err(NotMade::DiskFault),
    }
}

fn write_first<O: Sink, D: Disk>(out: &mut O, first: &mut D) -> Result<(), NotMade>
    ensures writes { WritesByte (form D.Disk) first.old first.new }
    ensures written { is_disk_fault (create_finish result) ≡ false → HasByte (form D.Disk) first.old first.new }
    ensures not_before { is_refused (create_finish result) ≡ false }
    ensures told { TellsLine (O.taken out.old) (O.taken out.new) result }
    ensures out { counts.IsCounted (is_write_fault (create_finish result)) (O.faults out.old) (O.faults out.new) }
    ensures disk { counts.IsCounted (is_disk_fault (create_finish result)) (D.faults first.old) (D.faults first.new) }
{
    match write_settled(first, 0, &[1]) {
        Ok(()) => tell(out),
        Err(_) => Err(NotMade::DiskFault),
    }
}

fn tell<O: Sink>(out: &mut O) -> Result<(), NotMade>
    ensures told { TellsLine (O.taken out.old) (O.taken out.new) result }
    ensures not_before { is_refused (create_finish result) ≡ false }
    ensures no_disk { is_disk_fault (create_finish result) ≡ false }
    ensures out { counts.IsCounted (is_write_fault (create_finish result)) (O.faults out.old) (O.faults out.new) }
{
    match write_all(out, b"created\n") {
        Ok(()) => Ok(()),
        Err(_) => Err(NotMade::WriteFault),
    }
}
