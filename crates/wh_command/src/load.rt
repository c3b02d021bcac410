// The command `load SPEC DIR`: the stored tables of the dumps are written to an empty store.
ghost use Rattle.std.specs.Prelude.{◌≡◌, ◌≤◌, true, false, Ok, Some, None, IfOk, IfSome, OnOk};
ghost use Rattle.std.specs.List.{AllByRecursion};
ghost use Rattle.std.specs.Option.{option_map};
ghost use Rattle.wh_base.specs.RowSet.{IsAscending};
ghost use Rattle.wh_codec.specs.Body.{IsSpelledRow};
ghost use Rattle.wh_covers.specs.Covers.{IsNumbered};
ghost use Rattle.wh_io.specs.Causes.{IsCounted, IsCountedPair};
ghost use Rattle.wh_io.specs.Crash.{LeavesOnly};
ghost use Rattle.wh_load.specs.Load.{HasDistinctRows};
ghost use Rattle.wh_plan.specs.Plan.{IsPlan, too_many};
ghost use Rattle.wh_store.specs.Image.{holding, fit_stored, first_over};
ghost use Rattle.wh_store.specs.Store.{are_empty};
ghost use Rattle.wh_spec_text.specs.Textual.{IsTextualSpec};
ghost use Rattle.wh_command.specs.Disks.{BothRest};
ghost use Rattle.wh_command.specs.Inputs.{and_then, IsFromText, AreDumpsOf, IsNextDump};
ghost use Rattle.wh_command.specs.Load.{EndsLoad, EndsKeep, TellsLine, if_unloaded, gathered, gathered_by, loaded_text, row_count, stock_shown, tables_shown, IsStock, IsReadByLoad};
ghost use Rattle.wh_command.specs.Show.{shown, tables_of};
ghost use Rattle.wh_command.specs.Steps.{Settles, NamesRead, BlamesFiles, BlamesNone, is_usage, is_read_fault, is_write_fault, is_disk_fault};

use crate::inputs::{read_dumps, read_plan};
use crate::show::tables_of;
use crate::status::Status;
use crate::stop::Stop;
use crate::store::{check_empty, make_store};
use itoa::Buffer;
use std::alloc::Global;
use wh_base::{ByteText, Failed, NoMemory, State, StoredRows};
use wh_io::{Disk, Files, Sink, write_all};
use wh_plan::Plan;
use wh_steps::{Ledger, Steps};

/// What a load writes: the stored tables of a plan, and the line that counts them.
#[derive(Drop)]
pub struct Stock {
    pub plan: Plan,
    pub tables: StoredRows,
    pub line: ByteText,
}

/// Makes the store of the dumps in a folder.
pub fn load<F: Files, O: Sink, D: Disk, L: Ledger>(
    alloc: Global,
    spec_name: &str,
    dir: &str,
    files: &mut F,
    out: &mut O,
    first: &mut D,
    second: &mut D,
    steps: &mut Steps<L>,
) -> Result<Status, Stop>
    ensures ends { IfSome (F.held files.old) (λ held. (start : _) → BothRest D.content D.images first.old second.old start →
        EndsLoad D.content D.images D.moment D.images_since held spec_name.now dir.now start first.old first.new second.old second.new (O.taken out.old) (O.taken out.new) result) }
    ensures second_same { D.content second.new ≡ D.content second.old }
    ensures same { F.held files.new ≡ F.held files.old }
    ensures read { IsCounted (is_read_fault result) (F.faults files.old) (F.faults files.new) }
    ensures write { IsCounted (is_write_fault result) (O.faults out.old) (O.faults out.new) }
    ensures disk { IsCountedPair (is_disk_fault result) (D.faults first.old) (D.faults first.new) (D.faults second.old) (D.faults second.new) }
    ensures usage { is_usage result ≡ false }
    ensures done { IfOk result (λ status. status ≡ Status.Ok) }
    ensures probes { steps.old.probes ≤ steps.new.probes }
    ensures scans { steps.old.scans ≤ steps.new.scans }
{
    match prepare(alloc, spec_name, dir, files, first, second, steps) {
        Ok(stock) => keep(alloc, stock, out, first, second),
        Err(stop) => Err(stop),
    }
}

// Reads the specification, looks at the store, and gathers what it is to hold.
fn prepare<F: Files, D: Disk, L: Ledger>(
    alloc: Global,
    spec_name: &str,
    dir: &str,
    files: &mut F,
    first: &mut D,
    second: &mut D,
    steps: &mut Steps<L>,
) -> Result<Stock, Stop>
    ensures answer { IfSome (D.content first.old) (λ a. IfSome (D.content second.old) (λ b. Settles (option_map (λ held. gathered held spec_name.now dir.now (holding a b)) (F.held files.old)) (stock_shown result))) }
    ensures stock { IfOk result IsStock }
    ensures empty { OnOk result (IfSome (D.content first.old) (λ a. IfSome (D.content second.old) (λ b. are_empty a b ≡ true))) }
    ensures names { IfSome (D.content first.old) (λ a. IfSome (D.content second.old) (λ b. IfSome (F.held files.old) (λ held. NamesRead (IsReadByLoad held spec_name.now dir.now (holding a b)) result))) }
    ensures first_same { D.content first.new ≡ D.content first.old }
    ensures second_same { D.content second.new ≡ D.content second.old }
    ensures first_moments { LeavesOnly D.moment D.images_since first.old first.new (D.images first.old) }
    ensures second_moments { LeavesOnly D.moment D.images_since second.old second.new (D.images second.old) }
    ensures same { F.held files.new ≡ F.held files.old }
    ensures read { IsCounted (is_read_fault result) (F.faults files.old) (F.faults files.new) }
    ensures write { is_write_fault result ≡ false }
    ensures usage { is_usage result ≡ false }
    ensures disk { IsCountedPair (is_disk_fault result) (D.faults first.old) (D.faults first.new) (D.faults second.old) (D.faults second.new) }
    ensures probes { steps.old.probes ≤ steps.new.probes }
    ensures scans { steps.old.scans ≤ steps.new.scans }
{
    match read_plan(alloc, files, spec_name) {
        Ok(plan) => prepare_by(alloc, plan, dir, files, first, second, steps),
        Err(stop) => Err(stop),
    }
}

fn prepare_by<F: Files, D: Disk, L: Ledger>(
    alloc: Global,
    plan: Plan,
    dir: &str,
    files: &mut F,
    first: &mut D,
    second: &mut D,
    steps: &mut Steps<L>,
) -> Result<Stock, Stop>
    requires numbered { IsNumbered plan.spec }
    requires plan { IsPlan plan }
    requires text { IsFromText plan.spec }
    requires few { too_many plan.spec ≡ None }
    ensures answer { IfSome (D.content first.old) (λ a. IfSome (D.content second.old) (λ b. Settles (option_map (λ held. if_unloaded (holding a b) (gathered_by held dir.now plan.spec)) (F.held files.old)) (stock_shown result))) }
    ensures stock { IfOk result IsStock }
    ensures empty { OnOk result (IfSome (D.content first.old) (λ a. IfSome (D.content second.old) (λ b. are_empty a b ≡ true))) }
    ensures names { IfSome (D.content first.old) (λ a. IfSome (D.content second.old) (λ b. IfSome (F.held files.old) (λ held. NamesRead (λ file. (holding a b ≡ Ok None) × IsNextDump held dir.now plan.spec.relations file) result))) }
    ensures first_same { D.content first.new ≡ D.content first.old }
    ensures second_same { D.content second.new ≡ D.content second.old }
    ensures first_moments { LeavesOnly D.moment D.images_since first.old first.new (D.images first.old) }
    ensures second_moments { LeavesOnly D.moment D.images_since second.old second.new (D.images second.old) }
    ensures same { F.held files.new ≡ F.held files.old }
    ensures read { IsCounted (is_read_fault result) (F.faults files.old) (F.faults files.new) }
    ensures write { is_write_fault result ≡ false }
    ensures usage { is_usage result ≡ false }
    ensures disk { IsCountedPair (is_disk_fault result) (D.faults first.old) (D.faults first.new) (D.faults second.old) (D.faults second.new) }
    ensures probes { steps.old.probes ≤ steps.new.probes }
    ensures scans { steps.old.scans ≤ steps.new.scans }
{
    match check_empty(first, second) {
        Ok(()) => gather(alloc, plan, dir, files, steps),
        Err(stop) => Err(stop),
    }
}

// Reads the dumps, and computes the stored tables.
fn gather<F: Files, L: Ledger>(
    alloc: Global,
    plan: Plan,
    dir: &str,
    files: &mut F,
    steps: &mut Steps<L>,
) -> Result<Stock, Stop>
    requires numbered { IsNumbered plan.spec }
    requires plan { IsPlan plan }
    requires text { IsFromText plan.spec }
    requires few { too_many plan.spec ≡ None }
    ensures answer { Settles (option_map (λ held. gathered_by held dir.now plan.spec) (F.held files.old)) (stock_shown result) }
    ensures stock { IfOk result IsStock }
    ensures names { IfSome (F.held files.old) (λ held. NamesRead (IsNextDump held dir.now plan.spec.relations) result) }
    ensures same { F.held files.new ≡ F.held files.old }
    ensures blames { BlamesFiles result }
    ensures cause { IsCounted (is_read_fault result) (F.faults files.old) (F.faults files.new) }
    ensures probes { steps.old.probes ≤ steps.new.probes }
    ensures scans { steps.old.scans ≤ steps.new.scans }
{
    let state = read_dumps(alloc, files, dir, plan.spec.relations.as_slice())?;
    stock_of(alloc, plan, &state, steps)
}

#[tactic(auto, using(crate::proofs::Fitting::text_is_textual))]
fn stock_of<L: Ledger>(
    alloc: Global,
    plan: Plan,
    state: &State,
    steps: &mut Steps<L>,
) -> Result<Stock, Stop>
    requires numbered { IsNumbered plan.spec }
    requires plan { IsPlan plan }
    requires text { IsFromText plan.spec }
    requires few { too_many plan.spec ≡ None }
    requires distinct { HasDistinctRows state.now }
    requires dumps { AreDumpsOf plan.spec.relations state.now }
    ensures answer { Settles (Some (tables_of plan.spec state.now)) (stock_shown result) }
    ensures stock { IfOk result IsStock }
    ensures blames { BlamesNone result }
    ensures probes { steps.old.probes ≤ steps.new.probes }
    ensures scans { steps.old.scans ≤ steps.new.scans }
{
    let tables = loadable(alloc, &plan, state, steps)?;
    let line = loaded_line(alloc, &tables)?;
    Ok(Stock { plan, tables, line })
}

// The stored tables of dumps.
#[tactic(auto, using(crate::proofs::Fitting::stored_fits, crate::proofs::Fitting::stored_ascends, crate::proofs::Fitting::stored_is_spelled))]
fn loadable<L: Ledger>(
    alloc: Global,
    plan: &Plan,
    state: &State,
    steps: &mut Steps<L>,
) -> Result<StoredRows, Stop>
    requires numbered { IsNumbered plan.now.spec }
    requires plan { IsPlan plan.now }
    requires text { IsFromText plan.now.spec }
    requires distinct { HasDistinctRows state.now }
    requires dumps { AreDumpsOf plan.now.spec.relations state.now }
    ensures answer { Settles (Some (tables_of plan.now.spec state.now)) (tables_shown plan.now.spec result) }
    ensures within { IfOk result (λ tables. first_over tables ≡ None) }
    ensures fit { IfOk result (λ tables. fit_stored plan.now.spec tables ≡ true) }
    ensures ascending { IfOk result (AllByRecursion IsAscending) }
    ensures spelled { IfOk result (AllByRecursion (AllByRecursion IsSpelledRow)) }
    ensures blames { BlamesNone result }
    ensures probes { steps.old.probes ≤ steps.new.probes }
    ensures scans { steps.old.scans ≤ steps.new.scans }
{
    match tables_of(alloc, plan, state, steps) {
        Ok(tables) => Ok(tables),
        Err(stop) => Err(stop),
    }
}

/// `loaded: tables T, rows R`.
fn loaded_line(alloc: Global, tables: &StoredRows) -> Result<ByteText, NoMemory>
    ensures { IfOk result (λ text. text.bytes ≡ loaded_text tables.now) }
{
    let mut buffer = Buffer::new();
    let mut text = ByteText::from_slice(alloc, b"loaded: tables ")?;
    text.append(buffer.format(tables.len()).as_bytes())?;
    text.append(b", rows ")?;
    text.append(buffer.format(row_count(tables)).as_bytes())?;
    text.push(b'\n')?;
    Ok(text)
}

#[tactic(auto, using(crate::proofs::Counts::counted_more, crate::proofs::Counts::counted_all))]
fn row_count(tables: &StoredRows) -> u128
    ensures { result ≡ row_count tables.now }
{
    let mut count: u128 = 0;
    for rows in tables.as_slice() {
        count += rows.len() as u128;
    }
    count
}

// Writes the store, and then tells of it.
fn keep<O: Sink, D: Disk>(
    alloc: Global,
    stock: Stock,
    out: &mut O,
    first: &mut D,
    second: &mut D,
) -> Result<Status, Stop>
    requires stock { IsStock stock }
    requires empty { IfSome (D.content first.old) (λ a. IfSome (D.content second.old) (λ b. are_empty a b ≡ true)) }
    ensures ends { (start : _) → BothRest D.content D.images first.old second.old start →
        EndsKeep D.content D.images D.moment D.images_since (shown stock.plan.spec stock.tables) start first.old first.new second.old second.new (O.taken out.old) (O.taken out.new) result }
    ensures second_same { D.content second.new ≡ D.content second.old }
    ensures read { is_read_fault result ≡ false }
    ensures write { IsCounted (is_write_fault result) (O.faults out.old) (O.faults out.new) }
    ensures disk { IsCountedPair (is_disk_fault result) (D.faults first.old) (D.faults first.new) (D.faults second.old) (D.faults second.new) }
    ensures usage { is_usage result ≡ false }
    ensures done { IfOk result (λ status. status ≡ Status.Ok) }
{
    match make_store(alloc, stock.plan, stock.tables, first, second) {
        Ok(()) => tell_loaded(&stock.line, out),
        Err(stop) => Err(stop),
    }
}

fn tell_loaded<O: Sink>(line: &ByteText, out: &mut O) -> Result<Status, Stop>
    ensures tells { TellsLine line.now.bytes (O.taken out.old) (O.taken out.new) result }
    ensures write { IsCounted (is_write_fault result) (O.faults out.old) (O.faults out.new) }
{
    match write_all(out, line.as_bytes()) {
        Ok(()) => Ok(Status::Ok),
        Err(Failed) => Err(Stop::WriteFault),
    }
}
