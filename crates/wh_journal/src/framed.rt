ghost use Rattle.std.specs.Prelude.{◌≡◌, ◌+◌, ◌<◌, ◌^◌, length, IfOk};
ghost use Rattle.wh_journal.specs.File.{framed};

use crate::file::CLOSED;
use std::alloc::Global;
use std::marker::Model;
use wh_base::{ByteText, NoMemory};

/// A body as it is written behind a closed mark: its length, the body and a closed mark.
#[derive(Debug, Drop)]
pub struct Framed {
    bytes: Vec<u8>,
}

impl Model for Framed {
    ghost use Rattle.std.specs.Prelude.{List, ℕ};
    ghost use Rattle.wh_journal.specs.File.{framed_body, IsWholeFrame};

    ghost Value = { List ℕ };

    ghost view = { λ f. framed_body f.bytes.items };

    ghost invariant = { λ f. IsWholeFrame f.bytes.items };
}

impl Framed {
    pub(crate) fn as_bytes(&self) -> &[u8]
        ensures { result.now ≡ framed self.now }
    {
        self.bytes.as_slice()
    }

    /// How many bytes a file grows by where it is appended.
    pub(crate) fn size(&self) -> u64
        ensures size { result ≡ 9 + length self.now }
        ensures small { result < 2 ^ 63 }
    {
        self.bytes.len() as u64
    }
}

/// Frames a body, which it copies.
pub fn frame(alloc: Global, body: &ByteText) -> Result<Framed, NoMemory>
    ensures { IfOk result (λ framed. framed ≡ body.now.bytes) }
{
    let mut bytes = Vec::new(alloc);
    bytes.extend_from_slice(&(body.len() as u64).to_be_bytes())?;
    bytes.extend_from_slice(body.as_bytes())?;
    bytes.push(CLOSED)?;
    Ok(Framed { bytes })
}
