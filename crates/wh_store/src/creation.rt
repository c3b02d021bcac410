ghost use Rattle.std.specs.Prelude.{◌≡◌, ◌+◌, ◌<◌, ◌≤◌, ◌^◌, ◌∷◌, [], false, None, length, IfOk, IfErr, IfSome, OnOk, is_err, true};
ghost use Rattle.std.specs.List.{AllByRecursion};
ghost use Rattle.std.specs.Option.{option_map};
ghost use Rattle.wh_base.specs.RowSet.{IsAscending};
ghost use Rattle.wh_codec.specs.Body.{IsSpelledRow, IsSpelledSnapshot, frame_bytes};
ghost use Rattle.wh_codec.specs.declared.frame.Frame.TheVariants.{Snapshot};
ghost use Rattle.wh_io.specs.Causes.{IsCounted, IsCountedPair};
ghost use Rattle.wh_io.specs.Crash.{IsSettled, LeavesOnly};
ghost use Rattle.wh_journal.specs.File.{framed};
ghost use Rattle.wh_plan.specs.Plan.{IsPlan, too_many};
ghost use Rattle.wh_spec_text.specs.Printed.{spec_text};
ghost use Rattle.wh_spec_text.specs.Textual.{IsTextualSpec};
ghost use Rattle.wh_store.specs.Creation.{tables_in, IsTooLong, IsRefusedLoad, IsKeptOrAlone};
ghost use Rattle.wh_store.specs.Image.{fit_stored, first_over};
ghost use Rattle.wh_store.specs.Store.{IsCreated, IsLoaded, IsEmptyOrLoaded, loaded_body, loaded_file, is_too_large, loaded_image, are_empty, is_disk_fault, UnlessDiskFault, Refuses};
ghost use Rattle.wh_store.specs.Warehouse.{HoldsValues, IsWarehouseOf};

use crate::emptiness::both_empty;
use crate::fault::StoreFault;
use crate::tables::first_over;
use crate::warehouse::{Place, Warehouse, Which, warehouse_of};
use std::alloc::Global;
use wh_base::{ByteText, Bytes, Failed, NoMemory, StoredRows};
use wh_codec::{Frame, write_frame};
use wh_io::Disk;
use wh_journal::{Framed, Journal, clear, frame};
use wh_plan::Plan;
use wh_schema::Spec;
use wh_spec_text::print_spec;

// The printed specification, where four bytes hold its length.
fn printed(alloc: Global, spec: &Spec) -> Result<Bytes, StoreFault>
    ensures text { IfOk result (λ text. text ≡ spec_text spec.now) }
    ensures short { OnOk result (length (spec_text spec.now) < 2 ^ 32) }
    ensures fault { IfErr result (IsTooLong (spec_text spec.now)) }
{
    let mut text = ByteText::new(alloc);
    print_spec(alloc, spec, &mut text)?;
    if text.len() > u32::MAX as usize {
        return Err(StoreFault::FileLimit);
    }
    Ok(text.into_bytes())
}

// The tables of a snapshot.
fn tables_in(alloc: Global, frame: Frame) -> StoredRows
    ensures { result ≡ tables_in frame }
{
    match frame {
        Frame::Snapshot {
            generation: _,
            seq: _,
            spec: _spec,
            tables,
        } => tables,
        Frame::Change {
            seq: _,
            deltas: _deltas,
        } => StoredRows::new(alloc),
    }
}

// A framed snapshot, beside the tables that it was made of.
fn framed_snapshot(
    alloc: Global,
    generation: u64,
    seq: u64,
    spec: Bytes,
    tables: StoredRows,
) -> Result<(Framed, StoredRows), NoMemory>
    requires { IsSpelledSnapshot generation seq spec tables }
    ensures frame { IfOk result (λ made. made.0 ≡ frame_bytes (Snapshot generation seq spec tables)) }
    ensures tables { IfOk result (λ made. made.1 ≡ tables) }
{
    let snapshot = Frame::Snapshot {
        generation,
        seq,
        spec,
        tables,
    };
    let mut body = ByteText::new(alloc);
    write_frame(alloc, &snapshot, &mut body)?;
    let framed = frame(alloc, &body)?;
    Ok((framed, tables_in(alloc, snapshot)))
}

// The frame of a first snapshot, beside its tables, where none of them is over the limit.
fn small_frame(
    alloc: Global,
    spec: &Spec,
    rows: StoredRows,
) -> Result<(Framed, StoredRows), StoreFault>
    requires textual { IsTextualSpec spec.now }
    requires tables { fit_stored spec.now rows ≡ true }
    requires few { first_over rows ≡ None }
    requires ascending { AllByRecursion IsAscending rows }
    requires spelled { AllByRecursion (AllByRecursion IsSpelledRow) rows }
    ensures frame { IfOk result (λ made. made.0 ≡ loaded_body spec.now rows) }
    ensures tables { IfOk result (λ made. made.1 ≡ rows) }
    ensures small { OnOk result (is_too_large spec.now rows ≡ false) }
    ensures short { OnOk result (length (spec_text spec.now) < 2 ^ 32) }
    ensures fits { IfOk result (λ made. 10 + length made.0 ≤ 2 ^ 40) }
    ensures fault { IfErr result (IsRefusedLoad spec.now rows) }
{
    let text = printed(alloc, spec)?;
    let (framed, rows) = framed_snapshot(alloc, 1, 0, text, rows)?;
    let empty = Journal { end: 0, length: 1 };
    if !empty.fits(&framed) {
        return Err(StoreFault::FileLimit);
    }
    Ok((framed, rows))
}

// The frame of a first snapshot, beside its tables.
fn loaded_frame(
    alloc: Global,
    spec: &Spec,
    rows: StoredRows,
) -> Result<(Framed, StoredRows), StoreFault>
    requires textual { IsTextualSpec spec.now }
    requires tables { fit_stored spec.now rows ≡ true }
    requires ascending { AllByRecursion IsAscending rows }
    requires spelled { AllByRecursion (AllByRecursion IsSpelledRow) rows }
    ensures frame { IfOk result (λ made. made.0 ≡ loaded_body spec.now rows) }
    ensures tables { IfOk result (λ made. made.1 ≡ rows) }
    ensures few { OnOk result (first_over rows ≡ None) }
    ensures small { OnOk result (is_too_large spec.now rows ≡ false) }
    ensures short { OnOk result (length (spec_text spec.now) < 2 ^ 32) }
    ensures fits { IfOk result (λ made. 10 + length made.0 ≤ 2 ^ 40) }
    ensures fault { IfErr result (IsRefusedLoad spec.now rows) }
{
    match first_over(rows.as_slice()) {
        Some(table) => Err(StoreFault::RowLimit {
            table: table as u32,
        }),
        None => small_frame(alloc, spec, rows),
    }
}

// Makes a frame all that a file has.
fn write_alone<D: Disk>(disk: &mut D, only: &Framed) -> Result<Journal, Failed>
    requires { 10 + length only.now ≤ 2 ^ 40 }
    ensures file { OnOk result (D.content disk.new ≡ option_map (λ _. 1 ∷ framed only.now) (D.content disk.old)) }
    ensures journal { IfOk result (λ journal. journal ≡ record { end = 9 + length only.now; length = 10 + length only.now }) }
    ensures durable { OnOk result (IsSettled (D.content disk.new) (D.images disk.new)) }
    ensures any_moment { IsSettled (D.content disk.old) (D.images disk.old) → IfSome (D.content disk.old) (λ file. LeavesOnly D.moment D.images_since disk.old disk.new (IsKeptOrAlone file only.now)) }
    ensures cause { IsCounted (is_err result) (D.faults disk.old) (D.faults disk.new) }
{
    let mut journal = clear(disk)?;
    journal.append(disk, only)?;
    Ok(journal)
}

// The warehouse of a plan with these rows, beside the frame of its first snapshot. It writes nothing.
fn first_warehouse(
    alloc: Global,
    plan: Plan,
    rows: StoredRows,
) -> Result<(Warehouse, Framed), StoreFault>
    requires textual { IsTextualSpec plan.spec }
    requires plan { IsPlan plan }
    requires tables { fit_stored plan.spec rows ≡ true }
    requires ascending { AllByRecursion IsAscending rows }
    requires spelled { AllByRecursion (AllByRecursion IsSpelledRow) rows }
    ensures warehouse { IfOk result (λ made. IsWarehouseOf (loaded_image plan.spec rows) made.0) }
    ensures values { IfOk result (λ made. HoldsValues made.0) }
    ensures frame { IfOk result (λ made. made.1 ≡ loaded_body plan.spec rows) }
    ensures few { OnOk result (first_over rows ≡ None) }
    ensures small { OnOk result (is_too_large plan.spec rows ≡ false) }
    ensures short { OnOk result (length (spec_text plan.spec) < 2 ^ 32) }
    ensures fits { IfOk result (λ made. 10 + length made.1 ≤ 2 ^ 40) }
    ensures fault { IfErr result (IsRefusedLoad plan.spec rows) }
{
    let (framed, rows) = loaded_frame(alloc, &plan.spec, rows)?;
    let warehouse = warehouse_of(alloc, plan, rows, 0)?;
    Ok((warehouse, framed))
}

/// Writes the first snapshot of a store into two empty files: the specification and its stored tables. Where nothing was
/// pending, a crash at any moment of the call leaves two empty files or the loaded store. Where a file is not empty, and
/// at each refusal, it leaves at any moment what it might have left before the call.
pub fn create<D: Disk>(
    alloc: Global,
    plan: Plan,
    rows: StoredRows,
    first: &mut D,
    second: &mut D,
) -> Result<(Warehouse, Place), StoreFault>
    requires textual { IsTextualSpec plan.spec }
    requires plan { IsPlan plan }
    requires few { too_many plan.spec ≡ None }
    requires tables { fit_stored plan.spec rows ≡ true }
    requires ascending { AllByRecursion IsAscending rows }
    requires spelled { AllByRecursion (AllByRecursion IsSpelledRow) rows }
    ensures answer { IfSome (D.content first.old) (λ a. IfSome (D.content second.old) (λ b. IsCreated plan.spec rows a b result)) }
    ensures made { IfOk result (IsLoaded plan.spec rows) }
    ensures values { IfOk result (λ made. HoldsValues made.0) }
    ensures file { OnOk result (D.content first.new ≡ option_map (λ _. loaded_file plan.spec rows) (D.content first.old)) }
    ensures kept { Refuses result (D.content first.new ≡ D.content first.old) }
    ensures durable { IsSettled (D.content first.old) (D.images first.old) → UnlessDiskFault result (IsSettled (D.content first.new) (D.images first.new)) }
    ensures second_same { D.content second.new ≡ D.content second.old }
    ensures second_durable { IsSettled (D.content second.old) (D.images second.old) → IsSettled (D.content second.new) (D.images second.new) }
    ensures any_moment { IsSettled (D.content first.old) (D.images first.old) → IfSome (D.content first.old) (λ a. IfSome (D.content second.old) (λ b. are_empty a b ≡ true → LeavesOnly D.moment D.images_since first.old first.new (IsEmptyOrLoaded plan.spec rows b))) }
    ensures second_moments { LeavesOnly D.moment D.images_since second.old second.new (D.images second.old) }
    ensures full_moments { IfSome (D.content first.old) (λ a. IfSome (D.content second.old) (λ b. are_empty a b ≡ false → LeavesOnly D.moment D.images_since first.old first.new (D.images first.old))) }
    ensures refused_moments { Refuses result (LeavesOnly D.moment D.images_since first.old first.new (D.images first.old)) }
    ensures cause { IsCountedPair (is_disk_fault result) (D.faults first.old) (D.faults first.new) (D.faults second.old) (D.faults second.new) }
{
    if !both_empty(first, second)? {
        return Err(StoreFault::AlreadyLoaded);
    }
    let (warehouse, framed) = first_warehouse(alloc, plan, rows)?;
    let journal = write_alone(first, &framed)?;
    let place = Place {
        which: Which::First,
        generation: 1,
        journal,
        live: true,
    };
    Ok((warehouse, place))
}
