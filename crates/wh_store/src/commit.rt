ghost use Rattle.std.specs.Prelude.{◌≡◌, ◌+◌, ◌-◌, ◌<◌, ◌≤◌, ◌^◌, true, false, length, IfOk, OnOk, OnErr, IfSome, is_err};
ghost use Rattle.std.specs.Option.{ForSome, option_map};
ghost use Rattle.wh_io.specs.Causes.{IsCounted, IsCountedPair};
ghost use Rattle.wh_io.specs.Crash.{IsSettled, LeavesOnly};
ghost use Rattle.wh_journal.specs.File.{frames_of};
ghost use Rattle.wh_journal.specs.Journal.{IsJournalOf, IsBeforeOrAfter, appended, with_frame};
ghost use Rattle.wh_store.specs.Commit.{CanApplyAll, HasRoom, AreChanged, Matches, MayFollow, Advances, IsHeldBeforeOrAfter, active_of, other_of, change_body, journal_behind};
ghost use Rattle.wh_store.specs.Image.{Active};
ghost use Rattle.wh_store.specs.Warehouse.{IsInForm};

use crate::changes::apply_all;
use crate::ready::Ready;
use crate::warehouse::{Place, Warehouse, Which};
use wh_base::Failed;
use wh_io::Disk;
use wh_journal::{Framed, Journal};

// Writes a frame behind the journal's last one, after what stands there is cut off, and answers the journal with it.
fn write_frame<D: Disk>(journal: Journal, disk: &mut D, f: &Framed) -> Result<Journal, Failed>
    requires file { ForSome (D.content disk.old) (λ file. IsJournalOf file journal) }
    requires fits { journal.end + 10 + length f.now ≤ 2 ^ 40 }
    ensures file { OnOk result (D.content disk.new ≡ option_map (λ file. appended file journal.end f.now) (D.content disk.old)) }
    ensures frames { OnOk result (option_map frames_of (D.content disk.new) ≡ option_map (λ file. with_frame (frames_of file) f.now) (D.content disk.old)) }
    ensures place { IfOk result (λ after. ForSome (D.content disk.new) (λ file. IsJournalOf file after)) }
    ensures journal { IfOk result (λ after. after ≡ journal_behind journal f.now) }
    ensures durable { OnOk result (IsSettled (D.content disk.new) (D.images disk.new)) }
    ensures any_moment { IsSettled (D.content disk.old) (D.images disk.old) → IfSome (D.content disk.old) (λ file. LeavesOnly D.moment D.images_since disk.old disk.new (IsBeforeOrAfter file f.now)) }
    ensures reads { D.reads disk.new ≡ D.reads disk.old }
    ensures cause { IsCounted (is_err result) (D.faults disk.old) (D.faults disk.new) }
{
    let mut journal = journal;
    journal.tidy(disk)?;
    journal.append(disk, f)?;
    Ok(journal)
}

// The same in the active one of two files. The other stays.
fn write_active<D: Disk>(
    place: &Place,
    f: &Framed,
    first: &mut D,
    second: &mut D,
) -> Result<Journal, Failed>
    requires file { ForSome (D.content (active_of place.now.which first.old second.old)) (λ file. IsJournalOf file place.now.journal) }
    requires fits { place.now.journal.end + 10 + length f.now ≤ 2 ^ 40 }
    ensures file { OnOk result (D.content (active_of place.now.which first.new second.new) ≡ option_map (λ file. appended file place.now.journal.end f.now) (D.content (active_of place.now.which first.old second.old))) }
    ensures frames { OnOk result (option_map frames_of (D.content (active_of place.now.which first.new second.new)) ≡ option_map (λ file. with_frame (frames_of file) f.now) (D.content (active_of place.now.which first.old second.old))) }
    ensures place { IfOk result (λ after. ForSome (D.content (active_of place.now.which first.new second.new)) (λ file. IsJournalOf file after)) }
    ensures journal { IfOk result (λ after. after ≡ journal_behind place.now.journal f.now) }
    ensures other { other_of place.now.which first.new second.new ≡ other_of place.now.which first.old second.old }
    ensures durable { OnOk result (IsSettled (D.content (active_of place.now.which first.new second.new)) (D.images (active_of place.now.which first.new second.new))) }
    ensures any_moment { IsSettled (D.content (active_of place.now.which first.old second.old)) (D.images (active_of place.now.which first.old second.old)) → IfSome (D.content (active_of place.now.which first.old second.old)) (λ file. LeavesOnly D.moment D.images_since (active_of place.now.which first.old second.old) (active_of place.now.which first.new second.new) (IsBeforeOrAfter file f.now)) }
    ensures first_reads { D.reads first.new ≡ D.reads first.old }
    ensures second_reads { D.reads second.new ≡ D.reads second.old }
    ensures cause { IsCountedPair (is_err result) (D.faults first.old) (D.faults first.new) (D.faults second.old) (D.faults second.new) }
{
    match place.which {
        Which::First => write_frame(place.journal, first, f),
        Which::Second => write_frame(place.journal, second, f),
    }
}

impl Warehouse {
    /// Writes a change into the active file, and makes it in the tables. At `Failed` a disk failed: the file has the
    /// change wholly or not at all, the tables are as before, and the place may not be written at again. Where nothing
    /// was pending, a crash at any moment of the call leaves the state from before it or the one after it.
    pub fn commit<D: Disk>(
        &mut self,
        place: &mut Place,
        r: Ready,
        first: &mut D,
        second: &mut D,
    ) -> Result<(), Failed>
        requires live { place.old.live ≡ true }
        requires applies { CanApplyAll self.old.tables r.deltas }
        requires room { HasRoom self.old.tables r.deltas }
        requires seq { self.old.seq < 2 ^ 64 - 1 }
        requires body { r.body ≡ change_body (self.old.seq + 1) r.deltas }
        requires fits { place.old.journal.end + 10 + length r.body ≤ 2 ^ 40 }
        requires file { ForSome (D.content (active_of place.old.which first.old second.old)) (λ file. IsJournalOf file place.old.journal) }
        ensures tables { OnOk result (AreChanged self.old.tables r.deltas self.new.tables) }
        ensures seq { OnOk result (self.new.seq ≡ self.old.seq + 1) }
        ensures place { OnOk result (place.new ≡ record place.old { journal = journal_behind place.old.journal r.body }) }
        ensures kept { OnErr result (self.new.tables ≡ self.old.tables) }
        ensures seq_kept { OnErr result (self.new.seq ≡ self.old.seq) }
        ensures dead { OnErr result (place.new ≡ record place.old { live = false }) }
        ensures plan { self.new.plan ≡ self.old.plan }
        ensures form { IsInForm self.old → IsInForm self.new }
        ensures file { OnOk result (D.content (active_of place.old.which first.new second.new) ≡ option_map (λ file. appended file place.old.journal.end r.body) (D.content (active_of place.old.which first.old second.old))) }
        ensures journal { OnOk result (ForSome (D.content (active_of place.old.which first.new second.new)) (λ file. IsJournalOf file place.new.journal)) }
        ensures other { other_of place.old.which first.new second.new ≡ other_of place.old.which first.old second.old }
        ensures durable { OnOk result (IsSettled (D.content (active_of place.old.which first.new second.new)) (D.images (active_of place.old.which first.new second.new))) }
        ensures holds { OnOk result (IfSome (D.content first.old) (λ a. IfSome (D.content second.old) (λ b. IfSome (D.content first.new) (λ c. IfSome (D.content second.new) (λ d. Advances r.deltas a b self.old place.old c d self.new place.new))))) }
        ensures frames_at_any_moment { IsSettled (D.content (active_of place.old.which first.old second.old)) (D.images (active_of place.old.which first.old second.old)) → IfSome (D.content (active_of place.old.which first.old second.old)) (λ file. LeavesOnly D.moment D.images_since (active_of place.old.which first.old second.old) (active_of place.old.which first.new second.new) (IsBeforeOrAfter file r.body)) }
        ensures any_moment { IsSettled (D.content (active_of place.old.which first.old second.old)) (D.images (active_of place.old.which first.old second.old)) → IfSome (D.content first.old) (λ a. IfSome (D.content second.old) (λ b. (active : Active) → Matches active a b self.old place.old → MayFollow active.image r.deltas
            → LeavesOnly D.moment D.images_since (active_of place.old.which first.old second.old) (active_of place.old.which first.new second.new) (IsHeldBeforeOrAfter active r.deltas a b))) }
        ensures first_reads { D.reads first.new ≡ D.reads first.old }
        ensures second_reads { D.reads second.new ≡ D.reads second.old }
        ensures cause { IsCountedPair (is_err result) (D.faults first.old) (D.faults first.new) (D.faults second.old) (D.faults second.new) }
    {
        let Ready { prepared, framed } = r;
        match write_active(place, &framed, first, second) {
            Ok(journal) => {
                place.journal = journal;
                apply_all(&mut self.tables, prepared);
                self.seq += 1;
                Ok(())
            }
            Err(failed) => {
                place.live = false;
                Err(failed)
            }
        }
    }
}
