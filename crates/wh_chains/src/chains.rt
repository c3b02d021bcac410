ghost use Rattle.std.specs.Prelude.{◌≡◌, ◌+◌, ◌<◌, ◌≤◌, [], ◌∷◌, ◌++◌, length, slice_index, IfOk, OnOk};
ghost use Rattle.wh_chains.specs.Chains.{has_key, last_slot};
ghost use Rattle.wh_chains.specs.Links.{slot_at};

use crate::links::{Links, before_in, last_in};
use std::alloc::{AllocError, Global};
use std::marker::Model;

/// The slots of a table by their keys. The chain of a key has the slots with that key, the newest first.
#[derive(Debug, Drop)]
pub struct Chains {
    keys: Vec<u64>,
    links: Links,
    spare: usize,
}

impl Model for Chains {
    ghost use Rattle.std.specs.Prelude.{◌+◌, ◌≤◌, vec_len, vec_capacity};
    ghost use Rattle.wh_chains.specs.Chains.{KeyedSlots};
    ghost use Rattle.wh_chains.specs.Links.{IsChained, HasRoom};

    ghost Value = { KeyedSlots };

    ghost view = { λ c. record { keys = c.keys.items; spare = c.spare } };

    ghost invariant = { λ c. IsChained c.links c.keys.items × (vec_len c.keys + c.spare ≤ vec_capacity c.keys) × HasRoom c.links c.spare };
}

/// So many slots can be numbered.
const LIMIT: usize = 0xFFFF_FFFF;

impl Chains {
    /// No slots.
    pub fn new(alloc: Global) -> Result<Chains, AllocError>
        ensures { IfOk result (λ chains. chains ≡ record { keys = []; spare = 0 }) }
    {
        Ok(Chains {
            keys: Vec::new(alloc),
            links: Links::new(alloc, 1)?,
            spare: 0,
        })
    }

    /// Takes the memory for more slots. Where there are fewer buckets than slots, the slots are spread over more.
    pub fn reserve(&mut self, alloc: Global, additional: usize) -> Result<(), AllocError>
        ensures keys { self.new.keys ≡ self.old.keys }
        ensures room { OnOk result (additional ≤ self.new.spare) }
        ensures spare { self.old.spare ≤ self.new.spare }
    {
        let spare = self.spare.max(additional);
        let count = self.keys.len();
        if count > LIMIT || spare > LIMIT - count {
            return Err(AllocError);
        }
        self.keys.reserve(spare)?;
        let buckets = self.links.heads.len();
        if buckets < count + spare {
            let wanted = buckets.saturating_mul(2).max(count + spare);
            self.links = Links::spread(alloc, wanted, self.keys.as_slice(), spare)?;
        } else {
            self.links.reserve(spare)?;
        }
        self.spare = spare;
        Ok(())
    }

    /// Appends a slot with the key, which is then the first of its chain. It takes no memory.
    pub fn link(&mut self, key: u64)
        requires { 0 < self.old.spare }
        ensures keys { self.new.keys ≡ self.old.keys ++ key ∷ [] }
        ensures spare { self.new.spare + 1 ≡ self.old.spare }
    {
        self.spare -= 1;
        self.links.link(key);
        self.keys.push_reserved(key);
    }

    /// Takes all slots away, and keeps their room.
    pub fn clear(&mut self)
        ensures keys { self.new.keys ≡ [] }
        ensures spare { self.new.spare ≡ self.old.spare + length self.old.keys }
    {
        self.spare += self.keys.len();
        self.links.clear();
        self.keys.clear();
    }

    /// The first slot of the chain of a key, which is the last slot with it.
    pub fn last(&self, key: u64) -> Option<usize>
        ensures { result ≡ last_slot (has_key self.now.keys key) (length self.now.keys) }
    {
        slot_at(last_in(&self.links, self.keys.as_slice(), key))
    }

    /// The slot after one in the chain of a key, which is the last slot before it with the key.
    pub fn before(&self, slot: usize, key: u64) -> Option<usize>
        requires within { slot < length self.now.keys }
        requires same { slice_index self.now.keys slot ≡ key }
        ensures { result ≡ last_slot (has_key self.now.keys key) slot }
    {
        slot_at(before_in(&self.links, self.keys.as_slice(), slot, key))
    }
}

/// Where a link leads.
fn slot_at(link: u32) -> Option<usize>
    ensures { result ≡ slot_at link }
{
    if link == 0 {
        None
    } else {
        Some(link as usize - 1)
    }
}
