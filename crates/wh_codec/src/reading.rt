// Reading a body from left to right.
ghost use Rattle.wh_codec.specs.Body.{IsRead};
ghost use Rattle.wh_codec.specs.Reading.{Gives, spec_at, snapshot_at, change_at, frame_at, frame_of};

use crate::fault::FrameFault;
use crate::frame::Frame;
use crate::numbers::{front_at, u32_at, u64_at};
use crate::part::read_counted;
use std::alloc::Global;
use wh_base::{Bytes, Sequence};

#[tactic(auto, unfolding(crate::specs::Reading::spec_at))]
fn spec_at(alloc: Global, bytes: &[u8]) -> Result<(Bytes, &[u8]), FrameFault>
    ensures { Gives (λ x. (x.0, x.1.now)) result (spec_at bytes.now) }
{
    let (len, rest) = u32_at(bytes)?;
    let (spec, rest) = front_at(rest, len as usize)?;
    let spec = Sequence::from_vec(Vec::from_slice(alloc, spec)?);
    Ok((spec, rest))
}

#[tactic(auto, unfolding(crate::specs::Reading::snapshot_at))]
fn snapshot_at(alloc: Global, bytes: &[u8]) -> Result<(Frame, &[u8]), FrameFault>
    ensures { Gives (λ x. (x.0, x.1.now)) result (snapshot_at bytes.now) }
{
    let (generation, rest) = u64_at(bytes)?;
    let (seq, rest) = u64_at(rest)?;
    let (spec, rest) = spec_at(alloc, rest)?;
    let (tables, rest) = read_counted(alloc, rest)?;
    let snapshot = Frame::Snapshot {
        generation,
        seq,
        spec,
        tables,
    };
    Ok((snapshot, rest))
}

#[tactic(auto, unfolding(crate::specs::Reading::change_at))]
fn change_at(alloc: Global, bytes: &[u8]) -> Result<(Frame, &[u8]), FrameFault>
    ensures { Gives (λ x. (x.0, x.1.now)) result (change_at bytes.now) }
{
    let (seq, rest) = u64_at(bytes)?;
    let (deltas, rest) = read_counted(alloc, rest)?;
    Ok((Frame::Change { seq, deltas }, rest))
}

#[tactic(auto, unfolding(crate::specs::Reading::frame_at))]
fn frame_at(alloc: Global, bytes: &[u8]) -> Result<(Frame, &[u8]), FrameFault>
    ensures { Gives (λ x. (x.0, x.1.now)) result (frame_at bytes.now) }
{
    match bytes {
        [1, rest @ ..] => snapshot_at(alloc, rest),
        [2, rest @ ..] => change_at(alloc, rest),
        _ => Err(FrameFault::Bad),
    }
}

#[tactic(auto, unfolding(crate::specs::Reading::frame_of))]
fn frame_of(alloc: Global, body: &[u8]) -> Result<Frame, FrameFault>
    ensures { Gives (λ frame. frame) result (frame_of body.now) }
{
    let (frame, rest) = frame_at(alloc, body)?;
    if !rest.is_empty() {
        return Err(FrameFault::Bad);
    }
    Ok(frame)
}

/// The frame whose body this is, or `Bad` exactly where it is no frame's. Memory is asked for by the bytes
/// that are there, and never by a count that stands in them.
pub fn read_frame(alloc: Global, body: &[u8]) -> Result<Frame, FrameFault>
    ensures { IsRead body.now result }
{
    frame_of(alloc, body)
}
