// The command `make NUMBER SIZE`: a generated case is loaded, its change texts are taken, and the store is reported.
ghost use Rattle.std.specs.Prelude.{◌≡◌, ◌≤◌, false, IfOk, IfSome};
ghost use Rattle.wh_gen.specs.Case.{made_case};
ghost use Rattle.wh_gen.specs.Files.{case_dir, case_spec, change_names};
ghost use Rattle.wh_gen.specs.Texts.{texts_of};
ghost use Rattle.wh_io.specs.Causes.{IsCounted, IsCountedPair};
ghost use Rattle.wh_command.specs.Commands.{words_of};
ghost use Rattle.wh_command.specs.Disks.{BothRest};
ghost use Rattle.wh_command.specs.Make.{EndsCase, EndsChanges, EndsMake};
ghost use Rattle.wh_command.specs.Steps.{is_usage, is_read_fault, is_write_fault, is_disk_fault};

use crate::load::load;
use crate::refresh::refresh;
use crate::report::report;
use crate::status::Status;
use crate::stop::Stop;
use std::alloc::Global;
use wh_base::NoMemory;
use wh_gen::{CaseFiles, change_names, make_case};
use wh_io::{Disk, Files, Sink};
use wh_steps::{Ledger, Steps};

/// Makes the store of a generated case, and prints its report. The files of the case are in memory.
pub fn make<O: Sink, D: Disk, L: Ledger>(
    alloc: Global,
    number: u32,
    size: u32,
    out: &mut O,
    first: &mut D,
    second: &mut D,
    steps: &mut Steps<L>,
) -> Result<Status, Stop>
    requires number { number ≤ 999999 }
    requires some { 1 ≤ size }
    requires size { size ≤ 100000 }
    ensures ends { (start : _) → BothRest D.content D.images first.old second.old start →
        EndsMake D.content D.images D.moment D.images_since number size start first.old first.new second.old second.new (O.taken out.old) (O.taken out.new) result }
    ensures read { is_read_fault result ≡ false }
    ensures write { IsCounted (is_write_fault result) (O.faults out.old) (O.faults out.new) }
    ensures disk { IsCountedPair (is_disk_fault result) (D.faults first.old) (D.faults first.new) (D.faults second.old) (D.faults second.new) }
    ensures usage { is_usage result ≡ false }
    ensures done { IfOk result (λ status. status ≡ Status.Ok) }
    ensures probes { steps.old.probes ≤ steps.new.probes }
    ensures scans { steps.old.scans ≤ steps.new.scans }
{
    match made(alloc, number, size) {
        Ok((mut files, names)) => run_case(
            alloc,
            names.as_slice(),
            &mut files,
            out,
            first,
            second,
            steps,
        ),
        Err(NoMemory) => Err(Stop::NoMemory),
    }
}

// The files of a case, and the names of its change files.
fn made(alloc: Global, number: u32, size: u32) -> Result<(CaseFiles, Vec<String>), NoMemory>
    requires number { number ≤ 999999 }
    requires some { 1 ≤ size }
    requires size { size ≤ 100000 }
    ensures case { IfOk result (λ made. texts_of made.0.case ≡ made_case number size) }
    ensures names { IfOk result (λ made. words_of made.1.items ≡ change_names) }
{
    let case = make_case(alloc, number, size)?;
    let names = change_names(alloc)?;
    Ok((CaseFiles { case }, names))
}

// Loads the store of a case, and goes on where that ended well.
fn run_case<F: Files, O: Sink, D: Disk, L: Ledger>(
    alloc: Global,
    names: &[String],
    files: &mut F,
    out: &mut O,
    first: &mut D,
    second: &mut D,
    steps: &mut Steps<L>,
) -> Result<Status, Stop>
    ensures ends { IfSome (F.held files.old) (λ held. (start : _) → BothRest D.content D.images first.old second.old start →
        EndsCase D.content D.images D.moment D.images_since held case_spec case_dir (words_of names.now) start first.old first.new second.old second.new (O.taken out.old) (O.taken out.new) result) }
    ensures read { IsCounted (is_read_fault result) (F.faults files.old) (F.faults files.new) }
    ensures write { IsCounted (is_write_fault result) (O.faults out.old) (O.faults out.new) }
    ensures disk { IsCountedPair (is_disk_fault result) (D.faults first.old) (D.faults first.new) (D.faults second.old) (D.faults second.new) }
    ensures usage { is_usage result ≡ false }
    ensures done { IfOk result (λ status. status ≡ Status.Ok) }
    ensures probes { steps.old.probes ≤ steps.new.probes }
    ensures scans { steps.old.scans ≤ steps.new.scans }
{
    match load(alloc, "spec", "case", files, out, first, second, steps) {
        Ok(_) => take_changes(alloc, names, files, out, first, second, steps),
        Err(stop) => Err(stop),
    }
}

// Takes change files, and reports the store, whether they were accepted or not.
fn take_changes<F: Files, O: Sink, D: Disk, L: Ledger>(
    alloc: Global,
    names: &[String],
    files: &mut F,
    out: &mut O,
    first: &mut D,
    second: &mut D,
    steps: &mut Steps<L>,
) -> Result<Status, Stop>
    ensures ends { IfSome (F.held files.old) (λ held. (start : _) → BothRest D.content D.images first.old second.old start →
        EndsChanges D.content D.images D.moment D.images_since held (words_of names.now) start first.old first.new second.old second.new (O.taken out.old) (O.taken out.new) result) }
    ensures read { IsCounted (is_read_fault result) (F.faults files.old) (F.faults files.new) }
    ensures write { IsCounted (is_write_fault result) (O.faults out.old) (O.faults out.new) }
    ensures disk { IsCountedPair (is_disk_fault result) (D.faults first.old) (D.faults first.new) (D.faults second.old) (D.faults second.new) }
    ensures usage { is_usage result ≡ false }
    ensures done { IfOk result (λ status. status ≡ Status.Ok) }
    ensures probes { steps.old.probes ≤ steps.new.probes }
    ensures scans { steps.old.scans ≤ steps.new.scans }
{
    match refresh(alloc, names, files, out, first, second, steps) {
        Ok(_) => report(alloc, out, first, second, steps),
        Err(stop) => Err(stop),
    }
}
