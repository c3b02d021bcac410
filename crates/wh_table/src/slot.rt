ghost use Rattle.std.specs.Prelude.{◌≡◌};
ghost use Rattle.wh_table.specs.Slots.{is_row, has_at, is_live_with};

use crate::matches::has_values;
use wh_base::{Row, Value};

/// A row with its mark of deletion.
#[derive(Debug, Drop)]
pub(crate) struct Slot {
    pub(crate) row: Row,
    pub(crate) dead: bool,
}

impl Slot {
    /// Whether this row lives here.
    pub(crate) fn holds(&self, row: &Row) -> bool
        ensures { result ≡ is_live_with (is_row row.now) self.now }
    {
        !self.dead && row == &self.row
    }

    /// Whether a row lives here that has these values at the places.
    pub(crate) fn matches(&self, places: &[u32], values: &[Value]) -> bool
        ensures { result ≡ is_live_with (has_at places.now values.now) self.now }
    {
        !self.dead && has_values(&self.row, places, values)
    }
}
