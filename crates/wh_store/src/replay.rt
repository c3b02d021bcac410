// The frames of a file, one after another.
ghost use Rattle.std.specs.Prelude.{◌≡◌, ℕ, ◌+◌, ◌<◌, ◌^◌, ◌==◌, IfOk, IfSome, List, Some, Ok, length};
ghost use Rattle.std.specs.Option.{option_map};
ghost use Rattle.wh_codec.specs.Body.{IsSpelledSnapshot, IsSpelledChange};
ghost use Rattle.wh_codec.specs.declared.frame.Frame.TheVariants.{Snapshot, Change};
ghost use Rattle.wh_codec.specs.Reading.{frame_of};
ghost use Rattle.wh_journal.specs.File.{span};
ghost use Rattle.wh_journal.specs.Journal.{bodies_of, IsFound, EndsBehind};
ghost use Rattle.wh_store.specs.Image.{end_behind, after_first, after_frame, image_of_bodies, replayed, some_image};
ghost use Rattle.wh_store.specs.Opening.{image_of, IsSound, found_of, IsSoundState, HasLength, IsStateOf};

use crate::reading::{frame_in, plan_in};
use crate::tables::{are_stored_tables, next_tables, stored_heads};
use crate::warehouse::tables_of;
use std::alloc::Global;
use wh_base::{ByteText, Bytes, Heads, NoMemory, StoredDeltas, StoredRows, Texts};
use wh_codec::Frame;
use wh_journal::{Found, Journal};
use wh_plan::Plan;
use wh_table::Tables;

/// What the frames of a file come to so far: a snapshot, and the changes behind it.
#[derive(Drop)]
pub(crate) struct Replay {
    pub(crate) generation: u64,
    pub(crate) seq: u64,
    pub(crate) plan: Plan,
    /// The heads of the stored tables.
    pub(crate) stored: Heads,
    pub(crate) tables: Tables,
    /// It ends behind the frames so far, and has the file's length.
    pub(crate) journal: Journal,
}

/// What a file holds.
#[derive(Drop)]
pub(crate) enum FileState {
    Empty,
    Held(Replay),
    /// At this place stands a wrong mark, or the mark of the first frame that breaks a rule.
    Damaged { at: u64 },
}

// The state of a snapshot, or None where it breaks a rule.
fn of_snapshot(
    alloc: Global,
    generation: u64,
    seq: u64,
    text: &Bytes,
    tables: StoredRows,
    journal: Journal,
) -> Result<Option<Replay>, NoMemory>
    requires { IsSpelledSnapshot generation seq text.now tables }
    ensures image { IfOk result (λ first. option_map image_of first ≡ after_first journal.end (Some (Snapshot generation seq text.now tables))) }
    ensures sound { IfOk result (λ first. IfSome first IsSound) }
    ensures length { IfOk result (λ first. IfSome first (λ r. r.journal.length ≡ journal.length)) }
{
    let Some(plan) = plan_in(alloc, text.as_slice())? else {
        return Ok(None);
    };
    let stored = stored_heads(alloc, &plan.spec)?;
    if !are_stored_tables(&plan.spec, stored.as_slice(), tables.as_slice()) {
        return Ok(None);
    }
    let tables = tables_of(alloc, &plan, stored.as_slice(), tables)?;
    Ok(Some(Replay {
        generation,
        seq,
        plan,
        stored,
        tables,
        journal,
    }))
}

// The state after the first frame, or None where it is no snapshot that obeys the rules.
fn first_state(alloc: Global, body: &ByteText, len: u64) -> Result<Option<Replay>, NoMemory>
    requires { 9 + length body.now.bytes < 2 ^ 64 }
    ensures image { IfOk result (λ first. option_map image_of first ≡ after_first (end_behind 0 body.now.bytes) (frame_of body.now.bytes)) }
    ensures sound { IfOk result (λ first. IfSome first IsSound) }
    ensures length { IfOk result (λ first. IfSome first (λ r. r.journal.length ≡ len)) }
{
    let journal = Journal {
        end: 9 + body.len() as u64,
        length: len,
    };
    let Some(frame) = frame_in(alloc, body.as_bytes())? else {
        return Ok(None);
    };
    match frame {
        Frame::Snapshot {
            generation,
            seq,
            spec,
            tables,
        } => of_snapshot(alloc, generation, seq, &spec, tables, journal),
        Frame::Change {
            seq: _,
            deltas: _deltas,
        } => Ok(None),
    }
}

// Whether a number is the next one after the last.
fn is_next(seq: u64, last: u64) -> bool
    ensures { result ≡ (seq == last + 1) }
{
    last < seq && seq - last == 1
}

// The state after a change, or None where it breaks a rule.
fn changed(
    alloc: Global,
    state: Replay,
    seq: u64,
    deltas: StoredDeltas,
    end: u64,
) -> Result<Option<Replay>, NoMemory>
    requires sound { IsSound state }
    requires spelled { IsSpelledChange seq deltas }
    ensures image { IfOk result (λ next. option_map image_of next ≡ after_frame (image_of state) end (Some (Change seq deltas))) }
    ensures sound { IfOk result (λ next. IfSome next IsSound) }
    ensures length { IfOk result (λ next. IfSome next (λ r. r.journal.length ≡ state.journal.length)) }
    ensures end { IfOk result (λ next. IfSome next (λ r. r.journal.end ≡ end)) }
{
    if !is_next(seq, state.seq) {
        return Ok(None);
    }
    let Replay {
        generation,
        seq: _,
        plan,
        stored,
        tables,
        journal,
    } = state;
    let Some(tables) = next_tables(alloc, &plan, stored.as_slice(), tables, deltas)? else {
        return Ok(None);
    };
    let journal = Journal {
        end,
        length: journal.length,
    };
    Ok(Some(Replay {
        generation,
        seq,
        plan,
        stored,
        tables,
        journal,
    }))
}

// The state after a further frame, or None where it is no change that obeys the rules.
fn next_state(alloc: Global, state: Replay, body: &ByteText) -> Result<Option<Replay>, NoMemory>
    requires sound { IsSound state }
    requires end { state.journal.end + 9 + length body.now.bytes < 2 ^ 64 }
    ensures image { IfOk result (λ next. option_map image_of next ≡ after_frame (image_of state) (end_behind state.journal.end body.now.bytes) (frame_of body.now.bytes)) }
    ensures sound { IfOk result (λ next. IfSome next IsSound) }
    ensures length { IfOk result (λ next. IfSome next (λ r. r.journal.length ≡ state.journal.length)) }
    ensures end { IfOk result (λ next. IfSome next (λ r. r.journal.end ≡ end_behind state.journal.end body.now.bytes)) }
{
    let end = state.journal.end + 9 + body.len() as u64;
    let Some(frame) = frame_in(alloc, body.as_bytes())? else {
        return Ok(None);
    };
    match frame {
        Frame::Snapshot {
            generation: _,
            seq: _,
            spec: _spec,
            tables: _tables,
        } => Ok(None),
        Frame::Change { seq, deltas } => changed(alloc, state, seq, deltas, end),
    }
}

// What a state and the frames behind it come to.
fn replayed(alloc: Global, state: Replay, bodies: &[ByteText]) -> Result<FileState, NoMemory>
    requires sound { IsSound state }
    requires end { state.journal.end + span (bodies_of bodies.now) < 2 ^ 64 }
    ensures image { IfOk result (λ read. found_of read ≡ some_image (replayed (bodies_of bodies.now) (image_of state))) }
    ensures sound { IfOk result IsSoundState }
    ensures length { IfOk result (HasLength state.journal.length) }
{
    let mut state = state;
    for body in bodies {
        let at = state.journal.end;
        match next_state(alloc, state, body)? {
            Some(next) => state = next,
            None => return Ok(FileState::Damaged { at }),
        }
    }
    Ok(FileState::Held(state))
}

// What the frames of a file of this length come to.
fn state_of(alloc: Global, bodies: &Texts, len: u64) -> Result<FileState, NoMemory>
    requires { span (bodies_of bodies.now) < 2 ^ 64 }
    ensures image { IfOk result (λ read. found_of read ≡ image_of_bodies (bodies_of bodies.now)) }
    ensures sound { IfOk result IsSoundState }
    ensures length { IfOk result (HasLength len) }
{
    let [first, changes @ ..] = bodies.as_slice() else {
        return Ok(FileState::Empty);
    };
    match first_state(alloc, first, len)? {
        Some(state) => replayed(alloc, state, changes),
        None => Ok(FileState::Damaged { at: 0 }),
    }
}

/// What was found in a file comes to.
pub(crate) fn state_in(alloc: Global, found: Found) -> Result<FileState, NoMemory>
    requires { EndsBehind found }
    ensures state { (file : List ℕ) → IsFound file (Ok found) → IfOk result (IsStateOf file) }
    ensures sound { IfOk result IsSoundState }
{
    match found {
        Found::Empty => Ok(FileState::Empty),
        Found::Frames { bodies, journal } => state_of(alloc, &bodies, journal.length),
    }
}
