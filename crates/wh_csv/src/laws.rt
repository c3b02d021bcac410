//! What the definitions imply.

ghost use Rattle.std.specs.Prelude.{ℕ, List, Decides};
ghost use Rattle.wh_base.specs.Integer.{IsIntegerText};
ghost use Rattle.wh_csv.specs.Fields.{is_integer};

/// The test of an integer field says what `IsIntegerText` says.
pub fn integers_are_tested()
    ensures { (text : List ℕ) → Decides (is_integer text) (IsIntegerText text) }
{}
