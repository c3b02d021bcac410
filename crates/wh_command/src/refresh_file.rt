// One change file: it is read, its change is made, and its line is printed.
ghost use Rattle.std.specs.Prelude.{◌≡◌, ◌≤◌, false, map, Some, Ok, IfOk, OnOk};
ghost use Rattle.std.specs.List.{AllByRecursion};
ghost use Rattle.wh_csv.specs.Change.{change_of};
ghost use Rattle.wh_csv.specs.declared.change.Line as csv;
ghost use Rattle.wh_fit.specs.Fit.{IsFittingLine, as_line};
ghost use Rattle.wh_io.specs.Causes.{IsCounted, IsCountedPair};
ghost use Rattle.wh_command.specs.Refresh.{IsRefreshStatus, accepted, accepted_lines, lines_in, lines_or};
ghost use Rattle.wh_command.specs.RefreshSteps.{IsLastStop, IsReading, IsReady, IsSoundReading, StandsAt, Takes, TakesFile, TellsReport, TellsUnread};
ghost use Rattle.wh_command.specs.Steps.{is_disk_fault, is_read_fault, is_usage, is_write_fault};

use crate::inputs::read_file;
use crate::refresh_line::{
    Report, accepted, bad_record, over_limit, refused, rejected, roomy_line,
};
use crate::status::Status;
use crate::stop::Stop;
use std::alloc::Global;
use wh_base::{Bytes, Failed, NoMemory};
use wh_csv::{Change, CsvFault, read_change};
use wh_io::{Disk, Files, Sink, write_all};
use wh_schema::Spec;
use wh_steps::{Ledger, Steps};
use wh_store::{Place, Warehouse};

/// What a change file was read as: its lines, or why it has none.
#[derive(Drop)]
pub enum Reading {
    Lines(Change),
    Rejected(Report),
}

/// Takes one change file, and prints its line. A change is acknowledged before its line begins.
pub fn refresh_file<F: Files, O: Sink, D: Disk, L: Ledger>(
    alloc: Global,
    name: &str,
    w: &mut Warehouse,
    place: &mut Place,
    files: &mut F,
    out: &mut O,
    first: &mut D,
    second: &mut D,
    steps: &mut Steps<L>,
) -> Result<Status, Stop>
    requires ready { IsReady D.content first.old second.old w.old place.old }
    ensures takes { (held active : _) → F.held files.old ≡ Some held → StandsAt D.content D.images first.old second.old active w.old place.old →
        TakesFile D.content D.images D.moment D.images_since name.now active (accepted held active name.now) first.old first.new second.old second.new w.new place.new (O.taken out.old) (O.taken out.new) result }
    ensures ready { OnOk result (IsReady D.content first.new second.new w.new place.new) }
    ensures done { IfOk result IsRefreshStatus }
    ensures same { F.held files.new ≡ F.held files.old }
    ensures usage { is_usage result ≡ false }
    ensures read { IsCounted (is_read_fault result) (F.faults files.old) (F.faults files.new) }
    ensures write { IsCounted (is_write_fault result) (O.faults out.old) (O.faults out.new) }
    ensures disk { IsCountedPair (is_disk_fault result) (D.faults first.old) (D.faults first.new) (D.faults second.old) (D.faults second.new) }
    ensures first_reads { D.reads first.new ≡ D.reads first.old }
    ensures second_reads { D.reads second.new ≡ D.reads second.old }
    ensures probes { steps.old.probes ≤ steps.new.probes }
    ensures scans { steps.old.scans ≤ steps.new.scans }
{
    match take_file(alloc, name, w, place, files, first, second, steps) {
        Ok(report) => tell(&report, out),
        Err(stop) => Err(stop),
    }
}

fn tell<O: Sink>(report: &Report, out: &mut O) -> Result<Status, Stop>
    ensures tells { TellsReport report.now (O.taken out.old) (O.taken out.new) result }
    ensures write { IsCounted (is_write_fault result) (O.faults out.old) (O.faults out.new) }
{
    match write_all(out, report.line.as_slice()) {
        Ok(()) => Ok(report.status),
        Err(Failed) => Err(Stop::WriteFault),
    }
}

// Reads a file, and makes its change.
fn take_file<F: Files, D: Disk, L: Ledger>(
    alloc: Global,
    name: &str,
    w: &mut Warehouse,
    place: &mut Place,
    files: &mut F,
    first: &mut D,
    second: &mut D,
    steps: &mut Steps<L>,
) -> Result<Report, Stop>
    requires ready { IsReady D.content first.old second.old w.old place.old }
    ensures takes { (held active : _) → F.held files.old ≡ Some held → StandsAt D.content D.images first.old second.old active w.old place.old →
        Takes D.content D.images D.moment D.images_since name.now active (accepted held active name.now) first.old first.new second.old second.new w.new place.new result }
    ensures ready { OnOk result (IsReady D.content first.new second.new w.new place.new) }
    ensures done { IfOk result (λ report. IsRefreshStatus report.status) }
    ensures same { F.held files.new ≡ F.held files.old }
    ensures write { is_write_fault result ≡ false }
    ensures usage { is_usage result ≡ false }
    ensures read { IsCounted (is_read_fault result) (F.faults files.old) (F.faults files.new) }
    ensures disk { IsCountedPair (is_disk_fault result) (D.faults first.old) (D.faults first.new) (D.faults second.old) (D.faults second.new) }
    ensures first_reads { D.reads first.new ≡ D.reads first.old }
    ensures second_reads { D.reads second.new ≡ D.reads second.old }
    ensures probes { steps.old.probes ≤ steps.new.probes }
    ensures scans { steps.old.scans ≤ steps.new.scans }
{
    match read_lines(alloc, name, &w.plan.spec, files) {
        Ok(Reading::Lines(change)) => {
            make_change(alloc, name, w, place, &change, first, second, steps)
        }
        Ok(Reading::Rejected(report)) => Ok(report),
        Err(stop) => Err(stop),
    }
}

// Reads the lines of a file, or says why it has none.
fn read_lines<F: Files>(
    alloc: Global,
    name: &str,
    spec: &Spec,
    files: &mut F,
) -> Result<Reading, Stop>
    ensures reading { (held : _) → F.held files.old ≡ Some held → IfOk result (IsReading name.now (lines_in spec.now (held name.now))) }
    ensures sound { IfOk result (IsSoundReading spec.now) }
    ensures stops { IsLastStop name.now result }
    ensures same { F.held files.new ≡ F.held files.old }
    ensures cause { IsCounted (is_read_fault result) (F.faults files.old) (F.faults files.new) }
{
    match read_file(alloc, files, name) {
        Ok(text) => Ok(parse_change(alloc, name, spec, &text)?),
        Err(stop) => unread(alloc, name, stop),
    }
}

// A file that is not held or too long is told of. A fault and want of memory stay.
fn unread(alloc: Global, name: &str, stop: Stop) -> Result<Reading, Stop>
    ensures { TellsUnread name.now stop result }
{
    match stop {
        Stop::NoFile(_) => Ok(Reading::Rejected(rejected(
            alloc,
            name,
            Status::NoFile,
            b"",
            b"no file",
        )?)),
        Stop::Limit(_) => Ok(Reading::Rejected(over_limit(alloc, name, b"file")?)),
        other => Err(other),
    }
}

fn parse_change(alloc: Global, name: &str, spec: &Spec, text: &Bytes) -> Result<Reading, NoMemory>
    ensures reading { IfOk result (IsReading name.now (lines_or (change_of text.now spec.now))) }
    ensures sound { IfOk result (IsSoundReading spec.now) }
{
    match read_change(alloc, text.as_slice(), spec) {
        Ok(change) => Ok(Reading::Lines(change)),
        Err(CsvFault::At { at, cause }) => {
            Ok(Reading::Rejected(bad_record(alloc, name, at, cause)?))
        }
        Err(CsvFault::NoMemory) => Err(NoMemory),
    }
}

// Makes a change. The memory for its line is taken before, so that none is wanted once the change is made.
fn make_change<D: Disk, L: Ledger>(
    alloc: Global,
    name: &str,
    w: &mut Warehouse,
    place: &mut Place,
    change: &Change,
    first: &mut D,
    second: &mut D,
    steps: &mut Steps<L>,
) -> Result<Report, Stop>
    requires ready { IsReady D.content first.old second.old w.old place.old }
    requires lines { AllByRecursion (λ (l : csv.Line). IsFittingLine w.old.plan.spec (as_line l)) change.now }
    ensures takes { (active : _) → StandsAt D.content D.images first.old second.old active w.old place.old →
        Takes D.content D.images D.moment D.images_since name.now active (accepted_lines active.image (Ok (map as_line change.now))) first.old first.new second.old second.new w.new place.new result }
    ensures ready { OnOk result (IsReady D.content first.new second.new w.new place.new) }
    ensures done { IfOk result (λ report. IsRefreshStatus report.status) }
    ensures read { is_read_fault result ≡ false }
    ensures write { is_write_fault result ≡ false }
    ensures usage { is_usage result ≡ false }
    ensures disk { IsCountedPair (is_disk_fault result) (D.faults first.old) (D.faults first.new) (D.faults second.old) (D.faults second.new) }
    ensures first_reads { D.reads first.new ≡ D.reads first.old }
    ensures second_reads { D.reads second.new ≡ D.reads second.old }
    ensures probes { steps.old.probes ≤ steps.new.probes }
    ensures scans { steps.old.scans ≤ steps.new.scans }
{
    let line = roomy_line(alloc, name)?;
    match wh_refresh::refresh(alloc, w, place, change, first, second, steps) {
        Ok(net) => Ok(accepted(line, w.seq, &net)),
        Err(fault) => refused(alloc, name, &w.plan.spec, fault),
    }
}
