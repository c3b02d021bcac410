// Changes that are on the disk when the call returns.
ghost use Rattle.std.specs.Prelude.{◌≡◌, ◌≤◌, length, take, OnOk, IfSome, is_err};
ghost use Rattle.std.specs.Option.{ForSome, option_map};
ghost use Rattle.wh_io.specs.Causes.{IsCounted};
ghost use Rattle.wh_io.specs.Disk.{written, Torn, PartlyCut, Changes};
ghost use Rattle.wh_io.specs.Crash.{IsSettled, LeavesOnly};

use crate::Disk;
use wh_base::Failed;

/// Writes, and then syncs. Where nothing was pending, a crash at any moment of the call leaves the content at entry
/// with that range torn.
pub fn write_settled<D: Disk>(disk: &mut D, at: u64, bytes: &[u8]) -> Result<(), Failed>
    requires place { ForSome (D.content disk.old) (λ content. at ≤ length content) }
    ensures ok { OnOk result (D.content disk.new ≡ option_map (λ content. written content at bytes.now) (D.content disk.old)) }
    ensures partly { Changes (Torn at (length bytes.now)) (D.content disk.old) (D.content disk.new) }
    ensures durable { OnOk result (IsSettled (D.content disk.new) (D.images disk.new)) }
    ensures any_moment { IsSettled (D.content disk.old) (D.images disk.old) → IfSome (D.content disk.old) (λ content. LeavesOnly D.moment D.images_since disk.old disk.new (Torn at (length bytes.now) content)) }
    ensures reads { D.reads disk.new ≡ D.reads disk.old }
    ensures cause { IsCounted (is_err result) (D.faults disk.old) (D.faults disk.new) }
{
    disk.write_at(at, bytes)?;
    disk.sync()
}

/// Cuts, and then syncs. Where nothing was pending, a crash at any moment of the call leaves the content at entry with
/// that part cut off, in part or not at all.
pub fn cut_settled<D: Disk>(disk: &mut D, to: u64) -> Result<(), Failed>
    requires place { ForSome (D.content disk.old) (λ content. to ≤ length content) }
    ensures ok { OnOk result (D.content disk.new ≡ option_map (λ content. take to content) (D.content disk.old)) }
    ensures partly { Changes (PartlyCut to) (D.content disk.old) (D.content disk.new) }
    ensures durable { OnOk result (IsSettled (D.content disk.new) (D.images disk.new)) }
    ensures any_moment { IsSettled (D.content disk.old) (D.images disk.old) → IfSome (D.content disk.old) (λ content. LeavesOnly D.moment D.images_since disk.old disk.new (PartlyCut to content)) }
    ensures reads { D.reads disk.new ≡ D.reads disk.old }
    ensures cause { IsCounted (is_err result) (D.faults disk.old) (D.faults disk.new) }
{
    disk.cut(to)?;
    disk.sync()
}
