// What follows of every run, and of every history of runs. The functions have no code.
ghost use Rattle.wh_runs.specs.Disks.{form};
ghost use Rattle.wh_runs.specs.Laws.{DoneIsExact, RefusalKeeps, AskingKeeps, QuietReadsNothing, FaultlessIsPlanned, InPlaceKeepsOther, CrashReaches, KeepsAcknowledged, RefusalRests, SettledCrashReaches, SettledKeepsAcknowledged, Headline};

use crate::program::Commands;
use wh_io::Disk;

/// What was done is exact: all texts are printed, nothing is pending, and the files have exactly the last contents.
pub fn done_is_exact<F, D: Disk, C: Commands>()
    ensures { DoneIsExact F (form D.Disk) C.program }
{}

/// A refusal changes no byte.
pub fn refusal_keeps<F, D: Disk, C: Commands>()
    ensures { RefusalKeeps F (form D.Disk) C.program }
{}

/// A command that plans no change changes no byte.
pub fn asking_keeps<F, D: Disk, C: Commands>()
    ensures { AskingKeeps F (form D.Disk) C.program }
{}

/// A command that reads no files of other names meets no fault in reading one.
pub fn quiet_reads_nothing<F, D: Disk, C: Commands>()
    ensures { QuietReadsNothing F (form D.Disk) C.program }
{}

/// Where no device fails a run finishes as its plan says, or for want of memory.
pub fn faultless_is_planned<F, D: Disk, C: Commands>()
    ensures { FaultlessIsPlanned F (form D.Disk) C.program }
{}

/// A command that writes in place leaves the bytes of the other file.
pub fn in_place_keeps_other<C: Commands>()
    ensures { InPlaceKeepsOther C.program }
{}

/// Whatever a crash leaves is what some first changes lead to, or might have been left at entry.
pub fn crash_reaches<F, D: Disk, C: Commands>()
    ensures { CrashReaches F (form D.Disk) C.program }
{}

/// At every exit whatever a crash leaves has each change whose text was begun.
pub fn keeps_acknowledged<F, D: Disk, C: Commands>()
    ensures { KeepsAcknowledged F (form D.Disk) C.program }
{}

/// Where nothing was pending, nothing is after a refusal, and each byte is as it was.
pub fn refusal_rests<F, D: Disk, C: Commands>()
    ensures { RefusalRests F (form D.Disk) C.program }
{}

/// Where nothing was pending, whatever a crash leaves is what some first changes lead to.
pub fn settled_crash_reaches<F, D: Disk, C: Commands>()
    ensures { SettledCrashReaches F (form D.Disk) C.program }
{}

/// Where nothing was pending, whatever a crash leaves at an exit has each change whose text was begun.
pub fn settled_keeps_acknowledged<F, D: Disk, C: Commands>()
    ensures { SettledKeepsAcknowledged F (form D.Disk) C.program }
{}

/// Whatever may be left behind any history of runs and kills means what its runs made of nothing.
pub fn headline<F, D: Disk, C: Commands>()
    ensures { Headline F (form D.Disk) C.program }
{}
