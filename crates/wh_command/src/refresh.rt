// The command `refresh FILE..`: change files, one after another.
ghost use Rattle.std.specs.Prelude.{◌≡◌, ◌≤◌, ◌+◌, false, length, map, string_bytes, Some, IfOk, IfSome};
ghost use Rattle.wh_io.specs.Causes.{IsCounted, IsCountedPair};
ghost use Rattle.wh_command.specs.Commands.{words_of};
ghost use Rattle.wh_command.specs.declared.status.Status.TheVariants.{Ok as all_well};
ghost use Rattle.wh_command.specs.Disks.{BothRest};
ghost use Rattle.wh_command.specs.Refresh.{EndsRefresh, IsRefreshStatus, first_status};
ghost use Rattle.wh_command.specs.RefreshSteps.{IsReady, StandsAt, TakesAll};
ghost use Rattle.wh_command.specs.Steps.{is_usage, is_read_fault, is_write_fault, is_disk_fault};

use crate::refresh_file::refresh_file;
use crate::status::Status;
use crate::stop::Stop;
use crate::store::open_placed;
use std::alloc::Global;
use wh_io::{Disk, Files, Sink};
use wh_steps::{Ledger, Steps};
use wh_store::{Place, Warehouse};

/// Takes change files in their order, and prints a line for each. The store is opened once.
pub fn refresh<F: Files, O: Sink, D: Disk, L: Ledger>(
    alloc: Global,
    names: &[String],
    files: &mut F,
    out: &mut O,
    first: &mut D,
    second: &mut D,
    steps: &mut Steps<L>,
) -> Result<Status, Stop>
    ensures ends { IfSome (F.held files.old) (λ held. (start : _) → BothRest D.content D.images first.old second.old start →
        EndsRefresh D.content D.images D.moment D.images_since held (words_of names.now) start first.old first.new second.old second.new (O.taken out.old) (O.taken out.new) result) }
    ensures same { F.held files.new ≡ F.held files.old }
    ensures read { IsCounted (is_read_fault result) (F.faults files.old) (F.faults files.new) }
    ensures write { IsCounted (is_write_fault result) (O.faults out.old) (O.faults out.new) }
    ensures disk { IsCountedPair (is_disk_fault result) (D.faults first.old) (D.faults first.new) (D.faults second.old) (D.faults second.new) }
    ensures first_reads { IfSome (D.content first.old) (λ a. D.reads first.new ≤ D.reads first.old + length a) }
    ensures second_reads { IfSome (D.content second.old) (λ b. D.reads second.new ≤ D.reads second.old + length b) }
    ensures usage { is_usage result ≡ false }
    ensures done { IfOk result IsRefreshStatus }
    ensures probes { steps.old.probes ≤ steps.new.probes }
    ensures scans { steps.old.scans ≤ steps.new.scans }
{
    match open_placed(alloc, first, second) {
        Ok(opened) => {
            let (mut w, mut place) = opened;
            refresh_all(
                alloc, names, &mut w, &mut place, files, out, first, second, steps,
            )
        }
        Err(stop) => Err(stop),
    }
}

// The files, one after another. The status is that of the first one that is not accepted.
fn refresh_all<F: Files, O: Sink, D: Disk, L: Ledger>(
    alloc: Global,
    names: &[String],
    w: &mut Warehouse,
    place: &mut Place,
    files: &mut F,
    out: &mut O,
    first: &mut D,
    second: &mut D,
    steps: &mut Steps<L>,
) -> Result<Status, Stop>
    requires ready { IsReady D.content first.old second.old w.old place.old }
    ensures takes { (held active : _) → F.held files.old ≡ Some held → StandsAt D.content D.images first.old second.old active w.old place.old →
        TakesAll D.content D.images D.moment D.images_since held (words_of names.now) active first.old first.new second.old second.new (O.taken out.old) (O.taken out.new) result }
    ensures done { IfOk result IsRefreshStatus }
    ensures same { F.held files.new ≡ F.held files.old }
    ensures usage { is_usage result ≡ false }
    ensures read { IsCounted (is_read_fault result) (F.faults files.old) (F.faults files.new) }
    ensures write { IsCounted (is_write_fault result) (O.faults out.old) (O.faults out.new) }
    ensures disk { IsCountedPair (is_disk_fault result) (D.faults first.old) (D.faults first.new) (D.faults second.old) (D.faults second.new) }
    ensures first_reads { D.reads first.new ≡ D.reads first.old }
    ensures second_reads { D.reads second.new ≡ D.reads second.old }
    ensures probes { steps.old.probes ≤ steps.new.probes }
    ensures scans { steps.old.scans ≤ steps.new.scans }
{
    let mut status = Status::Ok;
    for name in names {
        match refresh_file(
            alloc,
            name.as_str(),
            w,
            place,
            files,
            out,
            first,
            second,
            steps,
        ) {
            Ok(found) => status = first_status(status, found),
            Err(stop) => return Err(stop),
        }
    }
    Ok(status)
}

fn first_status(so_far: Status, next: Status) -> Status
    ensures { result ≡ first_status so_far next }
{
    match so_far {
        Status::Ok => next,
        other => other,
    }
}
