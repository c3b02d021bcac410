// Heads of buckets, and links from slot to slot.
ghost use Rattle.std.specs.Prelude.{◌≡◌, ◌+◌, ◌-◌, ◌<◌, ◌≤◌, ◌%◌, ◌^◌, ℕ, List, [], ◌∷◌, ◌++◌, length, slice_index, IfOk, OnOk, vec_len, vec_capacity};
ghost use Rattle.wh_chains.specs.Chains.{has_key};
ghost use Rattle.wh_chains.specs.Links.{AreLinked, IsChained, HasRoom, last_link};

use std::alloc::{AllocError, Global};

/// For each bucket the link to its last slot, and for each slot the link to the one before it in its bucket. A link is 0,
/// or one more than a slot.
#[derive(Debug, Drop)]
pub(crate) struct Links {
    pub(crate) heads: Vec<u32>,
    pub(crate) nexts: Vec<u32>,
}

impl Links {
    /// No slots, in so many buckets.
    pub(crate) fn new(alloc: Global, buckets: usize) -> Result<Links, AllocError>
        requires { 0 < buckets }
        ensures { IfOk result (λ links. IsChained links []) }
    {
        Ok(Links {
            heads: Vec::from_elem(alloc, 0, buckets)?,
            nexts: Vec::new(alloc),
        })
    }

    /// Makes room for more slots.
    pub(crate) fn reserve(&mut self, additional: usize) -> Result<(), AllocError>
        requires { vec_len self.old.nexts + additional < 2 ^ 32 }
        ensures heads { self.new.heads ≡ self.old.heads }
        ensures nexts { self.new.nexts.items ≡ self.old.nexts.items }
        ensures keeps_room { (n : ℕ) → HasRoom self.old n → HasRoom self.new n }
        ensures room { OnOk result (HasRoom self.new additional) }
    {
        self.nexts.reserve(additional)
    }

    /// Appends a slot with the key, at the front of its chain.
    pub(crate) fn link(&mut self, key: u64)
        requires some { 0 < vec_len self.old.heads }
        requires room { HasRoom self.old 1 }
        ensures chained { (keys : List ℕ) → IsChained self.old keys → IsChained self.new (keys ++ key ∷ []) }
        ensures room { (n : ℕ) → HasRoom self.old (n + 1) → HasRoom self.new n }
        ensures buckets { vec_len self.new.heads ≡ vec_len self.old.heads }
    {
        let bucket = (key % self.heads.len() as u64) as usize;
        let older = self.heads[bucket];
        self.nexts.push_reserved(older);
        self.heads[bucket] = self.nexts.len() as u32;
    }

    /// Takes all slots away, and keeps their memory.
    pub(crate) fn clear(&mut self)
        requires { 0 < vec_len self.old.heads }
        ensures chained { IsChained self.new [] }
        ensures room { (n : ℕ) → HasRoom self.old n → HasRoom self.new (n + vec_len self.old.nexts) }
    {
        self.nexts.clear();
        self.heads.fill(0);
    }

    /// The slots with these keys in so many buckets, with room for more.
    pub(crate) fn spread(
        alloc: Global,
        buckets: usize,
        keys: &[u64],
        additional: usize,
    ) -> Result<Links, AllocError>
        requires some { 0 < buckets }
        requires few { length keys.now + additional < 2 ^ 32 }
        ensures chained { IfOk result (λ links. IsChained links keys.now) }
        ensures room { IfOk result (λ links. HasRoom links additional) }
    {
        let mut links = Links::new(alloc, buckets)?;
        links.reserve(keys.len() + additional)?;
        for key in keys {
            links.link(*key);
        }
        Ok(links)
    }
}

/// Walks a bucket from a link on to the first slot with the key.
fn sought(buckets: usize, keys: &[u64], nexts: &[u32], from: u32, key: u64) -> u32
    requires some { 0 < buckets }
    requires long { length nexts.now ≡ length keys.now }
    requires linked { AreLinked buckets keys.now nexts.now }
    requires within { from ≤ length keys.now }
    requires bucket { 0 < from → slice_index keys.now (from - 1) % buckets ≡ key % buckets }
    ensures { result ≡ last_link (has_key keys.now key) from }
{
    let mut at = from;
    while at != 0 && keys[at as usize - 1] != key {
        at = nexts[at as usize - 1];
    }
    at
}

/// The link to the last slot with the key.
pub(crate) fn last_in(links: &Links, keys: &[u64], key: u64) -> u32
    requires { IsChained links.now keys.now }
    ensures { result ≡ last_link (has_key keys.now key) (length keys.now) }
{
    let buckets = links.heads.len();
    let bucket = (key % buckets as u64) as usize;
    sought(
        buckets,
        keys,
        links.nexts.as_slice(),
        links.heads[bucket],
        key,
    )
}

/// The link to the last slot with the key before one that has it.
pub(crate) fn before_in(links: &Links, keys: &[u64], slot: usize, key: u64) -> u32
    requires chained { IsChained links.now keys.now }
    requires within { slot < length keys.now }
    requires same { slice_index keys.now slot ≡ key }
    ensures { result ≡ last_link (has_key keys.now key) slot }
{
    sought(
        links.heads.len(),
        keys,
        links.nexts.as_slice(),
        links.nexts[slot],
        key,
    )
}
