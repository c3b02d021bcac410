use wh_base::Names;

/// What a piece of a relation is taken from: a view or an inclusion, by number from 0.
#[derive(Clone, Copy, Debug, Drop, PartialEq, Eq)]
pub enum PieceSource {
    View(u32),
    Inclusion(u32),
}

/// A usable view or inclusion cut to the attributes of the relation that it holds.
#[derive(Debug, Drop)]
pub struct Piece {
    pub source: PieceSource,
    pub attrs: Names,
}
