use sqlite_items::Boxed;
use wh_base::{Cond, Name, Names};
use wh_expr::Pairs;

/// What stands before a part of a query and changes its rows.
#[derive(Debug, Drop)]
pub enum Prefix {
    Project(Names),
    Select(Cond),
    Rename(Pairs),
}

/// What stands between two parts of a query.
#[derive(Clone, Copy, Debug, PartialEq, Eq)]
pub enum Infix {
    Union,
    Minus,
    Join,
}

/// What a query text spells, before any rule on it. Each node has the byte at which its name or its word begins.
#[derive(Debug, Drop)]
pub enum RawQuery {
    /// The name of a table.
    Named(u64, Name),
    /// A part behind a prefix.
    Behind(u64, Prefix, Boxed<RawQuery>),
    /// Two parts with a word between them.
    Between(u64, Infix, Boxed<RawQuery>, Boxed<RawQuery>),
}
