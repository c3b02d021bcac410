use wh_base::Row;

/// The first broken constraint, numbered from 1 (keys in relation order, then inclusions in declared order), and its least value.
#[derive(Debug, Drop)]
pub struct Broken {
    pub constraint: u32,
    pub value: Row,
}
