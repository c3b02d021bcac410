use crate::journal::Journal;
use wh_base::Texts;

/// What a file holds.
#[derive(Debug, Drop)]
pub enum Found {
    /// It has at most one byte, or begins with a closed mark.
    Empty,
    /// The bodies of its frames, one at least, and where it can be appended to.
    Frames { bodies: Texts, journal: Journal },
}
