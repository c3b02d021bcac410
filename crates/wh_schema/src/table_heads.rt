ghost use Rattle.std.specs.Prelude.{◌≡◌, ◌++◌, IfOk, codes, map};
ghost use Rattle.wh_schema.specs.Heads.{relation_head, typed_names, view_head, complement_head, heads_of};

use crate::adding::joined_attrs;
use crate::names::kind_in;
use crate::spec::{Relation, Spec, View};
use std::alloc::Global;
use wh_base::{Attr, Attrs, Duplicate, Head, Heads, Name, NoMemory};

fn relation_head(alloc: Global, relation: &Relation) -> Result<Head, NoMemory>
    ensures { IfOk result (λ head. head ≡ relation_head relation.now) }
{
    Ok(Head {
        name: relation.name.copy(alloc)?,
        attrs: relation.attrs.copy(alloc)?,
    })
}

fn typed_names(alloc: Global, attrs: &[Attr], names: &[Name]) -> Result<Attrs, NoMemory>
    ensures { IfOk result (λ typed. typed ≡ typed_names attrs.now names.now) }
{
    let mut typed = Attrs::new(alloc);
    for name in names {
        typed.push(Attr {
            name: name.copy(alloc)?,
            kind: kind_in(attrs, name),
        })?;
    }
    Ok(typed)
}

fn view_head(alloc: Global, spec: &Spec, view: &View) -> Result<Head, NoMemory>
    ensures { IfOk result (λ head. head ≡ view_head spec.now view.now) }
{
    let attrs = joined_attrs(alloc, spec, &view.relations)?;
    Ok(Head {
        name: view.name.copy(alloc)?,
        attrs: typed_names(alloc, attrs.as_slice(), view.head.as_slice())?,
    })
}

fn complement_name(alloc: Global, relation: &Name) -> Result<Name, NoMemory>
    ensures { IfOk result (λ name. name ≡ codes "C_" ++ relation.now) }
{
    let mut name = Vec::from_slice(alloc, b"C_")?;
    name.extend_from_slice(relation.as_slice())?;
    Ok(Name::from_vec(name))
}

fn complement_head(alloc: Global, relation: &Relation) -> Result<Head, NoMemory>
    ensures { IfOk result (λ head. head ≡ complement_head relation.now) }
{
    Ok(Head {
        name: complement_name(alloc, &relation.name)?,
        attrs: relation.attrs.copy(alloc)?,
    })
}

/// The name and the attributes of each number: the relations, then the views, then the complements.
pub fn heads(alloc: Global, spec: &Spec) -> Result<Heads, NoMemory>
    ensures { IfOk result (λ heads. heads ≡ heads_of spec.now) }
{
    let mut heads = Heads::new(alloc);
    for relation in spec.relations.as_slice() {
        heads.push(relation_head(alloc, relation)?)?;
    }
    for view in spec.views.as_slice() {
        heads.push(view_head(alloc, spec, view)?)?;
    }
    for relation in spec.relations.as_slice() {
        heads.push(complement_head(alloc, relation)?)?;
    }
    Ok(heads)
}
