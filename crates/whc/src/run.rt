// The top call.
ghost use Rattle.std.specs.Prelude.{◌≡◌, ◌≤◌};
ghost use Rattle.wh_command.specs.Commands.{command_of, words_of};
ghost use Rattle.wh_command.specs.Run.{Answers, Crashes, ReadsOnce};

use std::alloc::Global;
use wh_command::{Status, perform, tell};
use wh_io::{Disk, Files, Sink};
use wh_steps::{Ledger, Steps};

/// Does what the words say, over what it is handed, and tells how it ended.
///
/// The words are those behind the store's folder. What a command prints goes to `out`, and the one line of a
/// refusal or a fault to `err`. `first` and `second` are the two files of the store, and `steps` counts the
/// look-ups and scans of rows.
pub fn run<F: Files, O: Sink, E: Sink, D: Disk, L: Ledger>(
    alloc: Global,
    words: &[String],
    files: &mut F,
    out: &mut O,
    err: &mut E,
    first: &mut D,
    second: &mut D,
    steps: &mut Steps<L>,
) -> Status
    ensures answers { Answers D.content D.faults D.images (words_of words.now)
        (record {
          view = record { held = F.held files.old; out = O.taken out.old; first = first.old; second = second.old };
          files_faults = F.faults files.old;
          out_faults = O.faults out.old;
          err = E.taken err.old;
          err_faults = E.faults err.old;
        })
        (record {
          view = record { held = F.held files.new; out = O.taken out.new; first = first.new; second = second.new };
          files_faults = F.faults files.new;
          out_faults = O.faults out.new;
          err = E.taken err.new;
          err_faults = E.faults err.new;
        })
        result }
    ensures crash { Crashes D.content D.images D.moment D.images_since (command_of (words_of words.now)) (F.held files.old) first.old first.new second.old second.new }
    ensures files { F.held files.new ≡ F.held files.old }
    ensures reads { ReadsOnce D.content D.reads (command_of (words_of words.now)) first.old first.new second.old second.new }
    ensures probes { steps.old.probes ≤ steps.new.probes }
    ensures scans { steps.old.scans ≤ steps.new.scans }
{
    match perform(alloc, words, files, out, first, second, steps) {
        Ok(status) => status,
        Err(stop) => tell(&stop, err),
    }
}
