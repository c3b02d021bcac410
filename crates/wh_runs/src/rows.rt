// What the definitions say of the counter, and bodies that they refuse. The functions have no code.
ghost use Rattle.wh_runs.specs.Disks.{form};
ghost use Rattle.wh_runs.specs.Rows.{CreatesFirst, AddsInPlace, MovesOver, AsksOnly, RefusesAgain, NoLateWant, NoLateRead, NoCutRefusal, NoReadBehindQuestion, NoPendingAnswer, NoEarlyEmptying, NoSilentChange};

use wh_io::Disk;

/// What the commands of the counter come to.
pub fn counter_rows()
    ensures create { CreatesFirst }
    ensures add { AddsInPlace }
    ensures moved { MovesOver }
    ensures ask { AsksOnly }
    ensures refused { RefusesAgain }
{}

/// Want of memory is not answered once all is done.
pub fn late_want_is_refused<F, D: Disk>()
    ensures { NoLateWant F (form D.Disk) }
{}

/// Nor is a fault in reading a file.
pub fn late_read_is_refused<F, D: Disk>()
    ensures { NoLateRead F (form D.Disk) }
{}

/// A refusal cuts no byte off.
pub fn cut_refusal_is_refused<F, D: Disk>()
    ensures { NoCutRefusal F (form D.Disk) }
{}

/// A question that reads no files leaves the object that reads them as it was.
pub fn read_behind_question_is_refused<D: Disk>()
    ensures { NoReadBehindQuestion (form D.Disk) }
{}

/// No question is answered from what is still pending.
pub fn pending_answer_is_refused<F, D: Disk>()
    ensures { NoPendingAnswer F (form D.Disk) }
{}

/// The old file is not emptied before the new one stands.
pub fn early_emptying_is_refused<F, D: Disk>()
    ensures { NoEarlyEmptying F (form D.Disk) }
{}

/// No change is made that no text tells.
pub fn silent_change_is_refused<F, D: Disk>()
    ensures { NoSilentChange F (form D.Disk) }
{}
