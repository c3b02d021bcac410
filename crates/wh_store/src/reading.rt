// Frames and specifications in the bytes of a file.
ghost use Rattle.std.specs.Prelude.{◌≡◌, IfOk, IfSome};
ghost use Rattle.std.specs.Str.{bytes_eq};
ghost use Rattle.std.specs.Option.{option_map};
ghost use Rattle.wh_codec.specs.Body.{IsSpelled};
ghost use Rattle.wh_codec.specs.Reading.{frame_of};
ghost use Rattle.wh_plan.specs.Plan.{IsPlan};
ghost use Rattle.wh_spec_text.specs.Printed.{spec_text};
ghost use Rattle.wh_spec_text.specs.SpecTexts.{spec_of_text};
ghost use Rattle.wh_spec_text.specs.Textual.{IsTextualSpec};
ghost use Rattle.wh_covers.specs.Covers.{IsNumbered};
ghost use Rattle.wh_store.specs.Image.{printed_spec};
ghost use Rattle.wh_store.specs.Opening.{said_by, if_printed};

use std::alloc::Global;
use wh_base::{ByteText, NoMemory};
use wh_codec::{Frame, FrameFault, read_frame};
use wh_plan::{Plan, PlanFault, make_plan};
use wh_schema::Spec;
use wh_spec_text::{SpecTextFault, parse_spec, print_spec};

/// The frame whose body this is, or None where it is no frame's.
pub(crate) fn frame_in(alloc: Global, body: &[u8]) -> Result<Option<Frame>, NoMemory>
    ensures frame { IfOk result (λ frame. frame ≡ frame_of body.now) }
    ensures spelled { IfOk result (λ frame. IfSome frame IsSpelled) }
{
    match read_frame(alloc, body) {
        Ok(frame) => Ok(Some(frame)),
        Err(FrameFault::Bad) => Ok(None),
        Err(FrameFault::NoMemory) => Err(NoMemory),
    }
}

// Whether a specification is printed as this text.
fn is_printed(alloc: Global, spec: &Spec, text: &[u8]) -> Result<bool, NoMemory>
    ensures { IfOk result (λ is. is ≡ bytes_eq (spec_text spec.now) text.now) }
{
    let mut printed = ByteText::new(alloc);
    print_spec(alloc, spec, &mut printed)?;
    Ok(printed.as_bytes() == text)
}

// The specification that a text says, where it may be numbered.
fn parsed(alloc: Global, text: &[u8]) -> Result<Option<Spec>, NoMemory>
    ensures spec { IfOk result (λ spec. spec ≡ said_by (spec_of_text text.now)) }
    ensures numbered { IfOk result (λ spec. IfSome spec IsNumbered) }
{
    match parse_spec(alloc, text) {
        Ok(spec) => Ok(Some(spec)),
        Err(SpecTextFault::NoMemory) => Err(NoMemory),
        Err(_) => Ok(None),
    }
}

// The specification whose printed form is a text.
fn printed_spec(alloc: Global, text: &[u8]) -> Result<Option<Spec>, NoMemory>
    ensures spec { IfOk result (λ spec. spec ≡ if_printed text.now (said_by (spec_of_text text.now))) }
    ensures numbered { IfOk result (λ spec. IfSome spec IsNumbered) }
    ensures textual { IfOk result (λ spec. IfSome spec IsTextualSpec) }
{
    let Some(spec) = parsed(alloc, text)? else {
        return Ok(None);
    };
    if !is_printed(alloc, &spec, text)? {
        return Ok(None);
    }
    Ok(Some(spec))
}

/// The plan of the accepted specification whose printed form is a text, where no relation has too many pieces.
pub(crate) fn plan_in(alloc: Global, text: &[u8]) -> Result<Option<Plan>, NoMemory>
    ensures spec { IfOk result (λ plan. option_map (λ p. p.spec) plan ≡ printed_spec text.now) }
    ensures plan { IfOk result (λ plan. IfSome plan IsPlan) }
    ensures textual { IfOk result (λ plan. IfSome plan (λ p. IsTextualSpec p.spec)) }
{
    let Some(spec) = printed_spec(alloc, text)? else {
        return Ok(None);
    };
    match make_plan(alloc, spec) {
        Ok(plan) => Ok(Some(plan)),
        Err(PlanFault::TooManyPieces { .. }) => Ok(None),
        Err(PlanFault::NoMemory) => Err(NoMemory),
    }
}
