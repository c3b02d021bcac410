use crate::memory::NoMemory;
use crate::sequence::{Duplicate, Sequence};
use crate::value::{Attrs, Name};
use std::alloc::Global;

/// The name and the attributes of a numbered table.
#[derive(Debug, Drop)]
pub struct Head {
    pub name: Name,
    pub attrs: Attrs,
}

pub type Heads = Sequence<Head>;

impl Duplicate for Head {
    fn copy(&self, alloc: Global) -> Result<Head, NoMemory> {
        Ok(Head {
            name: self.name.copy(alloc)?,
            attrs: self.attrs.copy(alloc)?,
        })
    }
}
