// Laws of the frames of a file.
ghost use Rattle.std.specs.Prelude.{◌≡◌, ◌<◌, ◌↔◌, ℕ, List, length, Ok, Err, false};
ghost use Rattle.wh_journal.specs.File.{IsSpelledBy, IsWrongAt, frames_of, is_empty};

/// The frames of a file have these bodies exactly where it is those frames, a closed mark and any bytes.
pub fn frames_are_spelled()
    ensures { (file : List ℕ) (bodies : List (List ℕ)) → 0 < length bodies → (frames_of file ≡ Ok bodies) ↔ IsSpelledBy file bodies }
{}

/// A file is damaged at a place exactly where it is not empty and frames lead up to a wrong mark at that place.
pub fn damage_is_the_first_wrong_mark()
    ensures { (file : List ℕ) (place : ℕ) → (frames_of file ≡ Err place) ↔ ((is_empty file ≡ false) × IsWrongAt file place) }
{}
