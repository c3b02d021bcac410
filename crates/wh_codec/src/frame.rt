use wh_base::{Bytes, StoredDeltas, StoredRows};

/// What one frame of a warehouse file says.
#[derive(Debug, Drop)]
pub enum Frame {
    /// A whole state: the printed specification and the rows of each stored table.
    Snapshot {
        generation: u64,
        seq: u64,
        spec: Bytes,
        tables: StoredRows,
    },
    /// One accepted change, as what each stored table loses and gains.
    Change {
        seq: u64,
        deltas: StoredDeltas,
    },
}
