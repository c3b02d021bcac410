ghost use Rattle.std.specs.Prelude.{◌≡◌, ◌≤◌, ◌∷◌, [], map, IfOk};
ghost use Rattle.wh_gen.specs.Case.{made_case, dept_dump, emp_dump, task_dump};
ghost use Rattle.wh_gen.specs.Texts.{texts_of};

use crate::changes::change_texts;
use crate::dumps::{dept_dump, emp_dump, task_dump};
use std::alloc::Global;
use wh_base::{ByteText, NoMemory, Texts};

const SPEC: &[u8] = b"\
relation Dept(dept int, site text) key (dept);
relation Emp(emp int, dept int, pay int) key (emp);
relation Task(task int, emp int, hours int) key (task);
inclusion Emp(dept) in Dept(dept);
inclusion Task(emp) in Emp(emp);
view Staff = Emp join Dept;
view Work(task, emp, hours, dept) = Task join Emp where hours > 10;
";

/// A generated case: the text of a specification, the dumps of `Dept`, `Emp` and `Task`, and ten change texts, which are
/// meant to be taken one after another. The last one deletes a department to which employees belong.
#[derive(Debug, Drop)]
pub struct Case {
    pub spec: ByteText,
    pub dumps: Texts,
    pub changes: Texts,
}

fn dumps(alloc: Global, number: u32, size: u32) -> Result<Texts, NoMemory>
    requires number { number ≤ 999999 }
    requires some { 1 ≤ size }
    requires size { size ≤ 100000 }
    ensures { IfOk result (λ dumps. map (λ dump. dump.bytes) dumps ≡ dept_dump number size ∷ emp_dump number size ∷ task_dump number size ∷ []) }
{
    let mut dumps = Texts::new(alloc);
    dumps.push(dept_dump(alloc, number, size)?)?;
    dumps.push(emp_dump(alloc, number, size)?)?;
    dumps.push(task_dump(alloc, number, size)?)?;
    Ok(dumps)
}

/// The case of `size` employees and twice as many tasks. The number changes what the rows hold, and not how many there are.
/// From size 5 on, each task that a change text deletes stands in the dump as it is deleted.
///
/// Fails only where memory runs out.
pub fn make_case(alloc: Global, number: u32, size: u32) -> Result<Case, NoMemory>
    requires number { number ≤ 999999 }
    requires some { 1 ≤ size }
    requires size { size ≤ 100000 }
    ensures { IfOk result (λ case. texts_of case ≡ made_case number size) }
{
    Ok(Case {
        spec: ByteText::from_slice(alloc, SPEC)?,
        dumps: dumps(alloc, number, size)?,
        changes: change_texts(alloc, number, size)?,
    })
}
