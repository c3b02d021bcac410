// A sink in memory.
ghost use Rattle.std.specs.Prelude.{◌≡◌, ℕ, ◌+◌, ◌-◌, ◌<◌, ◌≤◌, ◌++◌, [], min, not, List, length, take, Some, IfOk, MatchResult, is_err, nat_lt};
ghost use Rattle.wh_io.specs.Causes.{IsCounted};
ghost use Rattle.wh_io.specs.Sink.{gained};
ghost use Rattle.wh_io.specs.Memory.{goes_well, after_call};

use crate::Sink;
use crate::plan::FaultPlan;
use std::alloc::Global;
use std::marker::Model;
use wh_base::{Failed, NoMemory, Numbers};

/// A sink in memory.
#[derive(Drop)]
pub struct MemSink {
    taken: Vec<u8>,
    most: u64,
    room: u64,
    plan: FaultPlan,
}

impl Model for MemSink {
    ghost use Rattle.std.specs.Prelude.{◌+◌, ◌<◌, ◌≤◌, vec_len, vec_capacity};
    ghost use Rattle.wh_io.specs.Memory.{SinkInMemory};

    ghost Value = { SinkInMemory };

    ghost view = { λ s. record { taken = s.taken.items; most = s.most; room = s.room; plan = s.plan } };

    ghost invariant = { λ s. (vec_len s.taken + s.room ≤ vec_capacity s.taken) × (0 < s.most) };
}

impl MemSink {
    /// Takes at most `most` bytes in a call and `room` in all. All its memory is taken here.
    pub fn new(alloc: Global, most: u64, room: u64, fails: Numbers) -> Result<Self, NoMemory>
        requires { 0 < most }
        ensures { IfOk result (λ sink. sink ≡ record { taken = []; most = most; room = room; plan = record { fails = fails; calls = 0; faults = 0 } }) }
    {
        Ok(MemSink {
            taken: Vec::with_capacity(alloc, room as usize)?,
            most,
            room,
            plan: FaultPlan::new(fails),
        })
    }

    /// The bytes taken.
    pub fn taken(&self) -> &[u8]
        ensures { result.now ≡ self.now.taken }
    {
        &self.taken
    }
}

impl Sink for MemSink {
    ghost taken = { λ s. Some s.taken };

    ghost faults = { λ s. s.plan.faults };

    /// Fails exactly at the listed calls and where no room is left.
    fn write(&mut self, piece: &[u8]) -> Result<usize, Failed>
        requires { 0 < length piece.now }
        ensures count { IfOk result (λ n. (0 < n) × (n ≤ length piece.now)) }
        ensures bytes { MatchResult result (λ n. Some self.new.taken ≡ gained (Some self.old.taken) (take n piece.now)) (λ _. Some self.new.taken ≡ Some self.old.taken) }
        ensures cause { IsCounted (is_err result) self.old.plan.faults self.new.plan.faults }
        ensures takes { IfOk result (λ n. n ≡ min (length piece.now) (min self.old.most self.old.room)) }
        ensures fails { is_err result ≡ not (goes_well self.old.plan (nat_lt 0 self.old.room)) }
        ensures room { MatchResult result (λ n. self.new.room ≡ self.old.room - n) (λ _. self.new.room ≡ self.old.room) }
        ensures most { self.new.most ≡ self.old.most }
        ensures after { self.new.plan ≡ after_call self.old.plan (nat_lt 0 self.old.room) }
    {
        self.plan.admit(self.room > 0)?;
        let count = (piece.len() as u64).min(self.most).min(self.room) as usize;
        let Ok(()) = self.taken.extend_from_slice(&piece[..count]) else {
            unreachable!()
        };
        self.room -= count as u64;
        Ok(count)
    }
}
