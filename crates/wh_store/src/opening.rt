ghost use Rattle.std.specs.Prelude.{◌≡◌, ◌+◌, ◌≤◌, ℕ, List, false, IfOk, IfErr, IfSome, Ok, Some, None, length, true};
ghost use Rattle.wh_io.specs.Causes.{IsCounted, IsCountedPair};
ghost use Rattle.wh_io.specs.Crash.{IsSettled, LeavesOnly};
ghost use Rattle.std.specs.Option.{ForSome};
ghost use Rattle.wh_journal.specs.Journal.{IsJournalOf};
ghost use Rattle.wh_store.specs.Commit.{active_of};
ghost use Rattle.wh_store.specs.Image.{both};
ghost use Rattle.wh_store.specs.Opening.{IsSound, IsSoundState, IsStateOf, IsNoRefusal, file_state, found_of, image_of, IsChosen};
ghost use Rattle.wh_store.specs.declared.replay.FileState.TheVariants as state;
ghost use Rattle.wh_store.specs.Store.{IsOpen, is_disk_fault, UnlessDiskFault};
ghost use Rattle.wh_store.specs.Warehouse.{HoldsValues, IsInForm, IsWarehouseOf};

use crate::fault::StoreFault;
use crate::replay::{FileState, Replay, state_in};
use crate::warehouse::{Place, Warehouse, Which};
use std::alloc::Global;
use wh_io::Disk;
use wh_journal::{JournalFault, recover};

// What a file holds, once what is pending is settled.
fn read_state<D: Disk>(alloc: Global, disk: &mut D) -> Result<FileState, StoreFault>
    ensures state { IfSome (D.content disk.old) (λ file. IfOk result (IsStateOf file)) }
    ensures sound { IfOk result IsSoundState }
    ensures fault { IfErr result IsNoRefusal }
    ensures same { D.content disk.new ≡ D.content disk.old }
    ensures durable { UnlessDiskFault result (IsSettled (D.content disk.new) (D.images disk.new)) }
    ensures any_moment { LeavesOnly D.moment D.images_since disk.old disk.new (D.images disk.old) }
    ensures reads { IfSome (D.content disk.old) (λ file. D.reads disk.new ≤ D.reads disk.old + length file) }
    ensures cause { IsCounted (is_disk_fault result) (D.faults disk.old) (D.faults disk.new) }
{
    match recover(alloc, disk) {
        Ok(found) => Ok(state_in(alloc, found)?),
        Err(JournalFault::Damaged { at }) => Ok(FileState::Damaged { at }),
        Err(JournalFault::DiskFault) => Err(StoreFault::DiskFault),
        Err(JournalFault::NoMemory) => Err(StoreFault::NoMemory),
    }
}

// The state of the later generation.
fn later(first: Replay, second: Replay) -> Result<(Which, Replay), StoreFault>
    requires first { IsSound first }
    requires second { IsSound second }
    ensures chosen { IsChosen (state.Held first) (state.Held second) (both (Ok (Some (image_of first))) (Ok (Some (image_of second)))) result }
    ensures sound { IfOk result (λ chosen. IsSound chosen.1) }
{
    if first.generation == second.generation {
        return Err(StoreFault::Damaged {
            which: Which::Second,
            at: u64::MAX,
        });
    }
    if first.generation > second.generation {
        Ok((Which::First, first))
    } else {
        Ok((Which::Second, second))
    }
}

// The state that counts beside that of the first file.
fn beside(first: Replay, second: FileState) -> Result<(Which, Replay), StoreFault>
    requires first { IsSound first }
    requires second { IsSoundState second }
    ensures chosen { IsChosen (state.Held first) second (both (Ok (Some (image_of first))) (found_of second)) result }
    ensures sound { IfOk result (λ chosen. IsSound chosen.1) }
{
    match second {
        FileState::Empty => Ok((Which::First, first)),
        FileState::Held(second) => later(first, second),
        FileState::Damaged { at } => Err(StoreFault::Damaged {
            which: Which::Second,
            at,
        }),
    }
}

// The state that counts where the first file is empty.
fn alone(second: FileState) -> Result<(Which, Replay), StoreFault>
    requires { IsSoundState second }
    ensures chosen { IsChosen state.Empty second (both (Ok None) (found_of second)) result }
    ensures sound { IfOk result (λ chosen. IsSound chosen.1) }
{
    match second {
        FileState::Empty => Err(StoreFault::NotLoaded),
        FileState::Held(second) => Ok((Which::Second, second)),
        FileState::Damaged { at } => Err(StoreFault::Damaged {
            which: Which::Second,
            at,
        }),
    }
}

// The state that counts.
fn chosen(first: FileState, second: FileState) -> Result<(Which, Replay), StoreFault>
    requires first { IsSoundState first }
    requires second { IsSoundState second }
    ensures chosen { IsChosen first second (both (found_of first) (found_of second)) result }
    ensures sound { IfOk result (λ chosen. IsSound chosen.1) }
{
    match first {
        FileState::Empty => alone(second),
        FileState::Held(first) => beside(first, second),
        FileState::Damaged { at } => Err(StoreFault::Damaged {
            which: Which::First,
            at,
        }),
    }
}

// The warehouse and the place of a state.
fn opened(which: Which, state: Replay) -> (Warehouse, Place)
    requires { IsSound state }
    ensures warehouse { IsWarehouseOf (image_of state) result.0 }
    ensures values { HoldsValues result.0 }
    ensures place { result.1 ≡ record { which = which; generation = state.generation; journal = state.journal; live = true } }
{
    let Replay {
        generation,
        seq,
        plan,
        stored: _stored,
        tables,
        journal,
    } = state;
    let warehouse = Warehouse { plan, tables, seq };
    let place = Place {
        which,
        generation,
        journal,
        live: true,
    };
    (warehouse, place)
}

// The warehouse and the place of the state that counts.
fn outcome(first: FileState, second: FileState) -> Result<(Warehouse, Place), StoreFault>
    requires first { IsSoundState first }
    requires second { IsSoundState second }
    ensures answer { (a b : List ℕ) → IsStateOf a first → IsStateOf b second → IsOpen a b result }
    ensures form { IfOk result (λ opened. IsInForm opened.0) }
    ensures values { IfOk result (λ opened. HoldsValues opened.0) }
    ensures live { IfOk result (λ opened. opened.1.live ≡ true) }
    ensures journal { IfOk result (λ opened. (file : List ℕ) → IsStateOf file (file_state opened.1.which first second) → IsJournalOf file opened.1.journal) }
    ensures no_disk { is_disk_fault result ≡ false }
{
    match chosen(first, second) {
        Ok((which, state)) => Ok(opened(which, state)),
        Err(fault) => Err(fault),
    }
}

/// The warehouse that the two files hold, and where its next change is written. It settles what is pending, and changes
/// no byte.
pub fn open_store<D: Disk>(
    alloc: Global,
    first: &mut D,
    second: &mut D,
) -> Result<(Warehouse, Place), StoreFault>
    ensures answer { IfSome (D.content first.old) (λ a. IfSome (D.content second.old) (λ b. IsOpen a b result)) }
    ensures form { IfOk result (λ opened. IsInForm opened.0) }
    ensures values { IfOk result (λ opened. HoldsValues opened.0) }
    ensures live { IfOk result (λ opened. opened.1.live ≡ true) }
    ensures journal { IfOk result (λ opened. ForSome (D.content (active_of opened.1.which first.new second.new)) (λ file. IsJournalOf file opened.1.journal)) }
    ensures first_same { D.content first.new ≡ D.content first.old }
    ensures second_same { D.content second.new ≡ D.content second.old }
    ensures first_durable { UnlessDiskFault result (IsSettled (D.content first.new) (D.images first.new)) }
    ensures second_durable { UnlessDiskFault result (IsSettled (D.content second.new) (D.images second.new)) }
    ensures first_moments { LeavesOnly D.moment D.images_since first.old first.new (D.images first.old) }
    ensures second_moments { LeavesOnly D.moment D.images_since second.old second.new (D.images second.old) }
    ensures first_reads { IfSome (D.content first.old) (λ a. D.reads first.new ≤ D.reads first.old + length a) }
    ensures second_reads { IfSome (D.content second.old) (λ b. D.reads second.new ≤ D.reads second.old + length b) }
    ensures cause { IsCountedPair (is_disk_fault result) (D.faults first.old) (D.faults first.new) (D.faults second.old) (D.faults second.new) }
{
    // The second file is settled even where there is no memory for the first.
    second.sync()?;
    let in_first = read_state(alloc, first)?;
    let in_second = read_state(alloc, second)?;
    outcome(in_first, in_second)
}
