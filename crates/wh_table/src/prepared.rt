ghost use Rattle.std.specs.Prelude.{◌≡◌};

use std::marker::Model;
use wh_base::{Delta, Rows};

/// A change of a table for which all memory was taken.
#[derive(Debug, Drop)]
pub struct Prepared {
    delta: Delta,
}

impl Model for Prepared {
    ghost use Rattle.wh_base.specs.declared.value.Delta.{Delta};

    ghost Value = { Delta };

    ghost view = { λ p. p.delta };
}

impl Prepared {
    pub(crate) fn new(delta: Delta) -> Prepared
        ensures { result ≡ delta }
    {
        Prepared { delta }
    }

    pub(crate) fn into_delta(self) -> Delta
        ensures { result ≡ self }
    {
        let Prepared { delta } = self;
        delta
    }
}
