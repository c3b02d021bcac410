// What stands in lists in a body: values, rows, tables and the deltas of tables.
ghost use Rattle.std.specs.Prelude.{◌≡◌, ◌++◌, ◌<◌, ◌^◌, ℕ, List, Option, length, OnOk};
ghost use Rattle.std.specs.List.{AllByRecursion, flat_map};
ghost use Rattle.wh_codec.specs.Body.{counted};
ghost use Rattle.wh_codec.specs.Reading.{Gives, many_at, counted_at};

use crate::fault::FrameFault;
use crate::numbers::{put_u32, u32_at};
use std::alloc::Global;
use wh_base::{ByteText, NoMemory, Sequence};

pub(crate) trait Part: Drop {
    /// What stands at the front of some bytes, and the bytes after it.
    ghost part_at: { List ℕ → Option (Self × List ℕ) };

    /// Its spelling.
    ghost spelling: { Self → List ℕ };

    /// That it has one.
    ghost fits: { Self → Type 0 };

    fn read(alloc: Global, bytes: &[u8]) -> Result<(Self, &[u8]), FrameFault>
        ensures { Gives (λ x. (x.0, x.1.now)) result (part_at bytes.now) };

    fn put(&self, out: &mut ByteText) -> Result<(), NoMemory>
        requires { fits self.now }
        ensures { OnOk result (out.new.bytes ≡ out.old.bytes ++ spelling self.now) };
}

/// Reads so many parts. Memory is taken for each as it is met, so a count alone takes none.
pub(crate) fn read_many<T: Part>(
    alloc: Global,
    count: u32,
    bytes: &[u8],
) -> Result<(Sequence<T>, &[u8]), FrameFault>
    ensures { Gives (λ x. (x.0, x.1.now)) result (many_at T.part_at count bytes.now) }
{
    let mut parts = Sequence::new(alloc);
    let mut rest = bytes;
    for _ in 0..count {
        let (part, after) = T::read(alloc, rest)?;
        parts.push(part)?;
        rest = after;
    }
    Ok((parts, rest))
}

pub(crate) fn put_many<T: Part>(out: &mut ByteText, parts: &[T]) -> Result<(), NoMemory>
    requires { AllByRecursion T.fits parts.now }
    ensures { OnOk result (out.new.bytes ≡ out.old.bytes ++ flat_map T.spelling parts.now) }
{
    for part in parts {
        part.put(out)?;
    }
    Ok(())
}

/// Reads how many parts there are, and the parts.
#[tactic(auto, unfolding(crate::specs::Reading::counted_at))]
pub(crate) fn read_counted<T: Part>(
    alloc: Global,
    bytes: &[u8],
) -> Result<(Sequence<T>, &[u8]), FrameFault>
    ensures { Gives (λ x. (x.0, x.1.now)) result (counted_at T.part_at bytes.now) }
{
    let (count, rest) = u32_at(bytes)?;
    read_many(alloc, count, rest)
}

pub(crate) fn put_counted<T: Part>(out: &mut ByteText, parts: &Sequence<T>) -> Result<(), NoMemory>
    requires count { length parts.now < 2 ^ 32 }
    requires parts { AllByRecursion T.fits parts.now }
    ensures { OnOk result (out.new.bytes ≡ out.old.bytes ++ counted T.spelling parts.now) }
{
    put_u32(out, parts.len() as u32)?;
    put_many(out, parts.as_slice())
}
