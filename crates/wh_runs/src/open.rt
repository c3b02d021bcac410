// Both files are opened.
ghost use Rattle.std.specs.Prelude.{is_err};
ghost use Rattle.wh_io.specs.Causes.{IsCountedPair};
ghost use Rattle.wh_runs.specs.Disks.{both, form};
ghost use Rattle.wh_runs.specs.Opens.{AreUnwritten, FirstComesFirst, OpensBoth, OpensSafely, ReadsNothing};

use wh_base::Failed;
use wh_io::Disk;

/// Settles what is pending in both files, the first one first.
pub fn open_both<D: Disk>(first: &mut D, second: &mut D) -> Result<(), Failed>
    ensures state { OpensBoth (form D.Disk) (both first.old second.old) (both first.new second.new) result }
    ensures crash { OpensSafely (form D.Disk) (both first.old second.old) (both first.new second.new) }
    ensures unwritten { AreUnwritten (form D.Disk) (both first.old second.old) (both first.new second.new) }
    ensures order { FirstComesFirst (form D.Disk) (both first.old second.old) (both first.new second.new) }
    ensures reads { ReadsNothing (form D.Disk) (both first.old second.old) (both first.new second.new) }
    ensures cause { IsCountedPair (is_err result) (D.faults first.old) (D.faults first.new) (D.faults second.old) (D.faults second.new) }
{
    match first.sync() {
        Ok(()) => second.sync(),
        Err(failed) => Err(failed),
    }
}
