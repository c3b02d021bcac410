// The texts of generated cases, byte by byte.
use std::alloc::Global;
use std::test::Fail;
use wh_base::{ByteText, NoMemory, Texts};
use wh_gen::{Case, make_case};

const SPEC: &[u8] = b"\
relation Dept(dept int, site text) key (dept);
relation Emp(emp int, dept int, pay int) key (emp);
relation Task(task int, emp int, hours int) key (task);
inclusion Emp(dept) in Dept(dept);
inclusion Task(emp) in Emp(emp);
view Staff = Emp join Dept;
view Work(task, emp, hours, dept) = Task join Emp where hours > 10;
";

// Of number 0 and size 1: the dumps, and change texts by their places.
const SMALLEST_DUMPS: &[&[u8]] = &[
    b"dept,site\n0,s0\n",
    b"emp,dept,pay\n0,0,1000\n",
    b"task,emp,hours\n0,0,0\n1,0,3\n",
];

const SMALLEST_CHANGES: &[(usize, &[u8])] = &[
    (0, b"+,Task,2,0,2\n-,Task,0,0,0\n"),
    (1, b"+,Task,3,0,3\n-,Task,1,0,3\n"),
    (9, b"-,Dept,0,s0\n+,Task,11,0,11\n-,Task,9,0,27\n"),
];

// Of number 3 and size 10.
const TEN_DUMPS: &[&[u8]] = &[
    b"dept,site\n0,s3\n1,s4\n",
    b"emp,dept,pay\n0,0,1003\n1,0,1004\n2,0,1005\n3,0,1006\n4,0,1007\n\
5,0,1008\n6,0,1009\n7,0,1010\n8,0,1011\n9,0,1012\n",
    b"task,emp,hours\n0,3,3\n1,4,6\n2,5,9\n3,6,12\n4,7,15\n5,8,18\n6,9,21\n7,0,24\n8,1,27\n9,2,30\n\
10,3,33\n11,4,36\n12,5,39\n13,6,2\n14,7,5\n15,8,8\n16,9,11\n17,0,14\n18,1,17\n19,2,20\n",
];

const TEN_CHANGES: &[(usize, &[u8])] = &[
    (
        0,
        b"+,Task,20,0,23\n-,Task,0,3,3\n+,Task,21,1,24\n-,Task,1,4,6\n",
    ),
    (
        8,
        b"+,Task,36,6,39\n-,Task,16,9,11\n+,Task,37,7,0\n-,Task,17,0,14\n",
    ),
    (
        9,
        b"-,Dept,0,s3\n+,Task,38,8,1\n-,Task,18,1,17\n+,Task,39,9,2\n-,Task,19,2,20\n",
    ),
];

fn is_text(text: Option<&ByteText>, wanted: &[u8]) -> bool {
    match text {
        Some(text) => text.as_bytes() == wanted,
        None => false,
    }
}

fn are_dumps(dumps: &Texts, wanted: &[&[u8]]) -> bool {
    for (place, dump) in wanted.iter().enumerate() {
        if !is_text(dumps.get(place), dump) {
            return false;
        }
    }
    dumps.len() == wanted.len()
}

// Whether there are ten change texts, and these at their places.
fn are_changes(changes: &Texts, wanted: &[(usize, &[u8])]) -> bool {
    for (place, text) in wanted {
        if !is_text(changes.get(*place), text) {
            return false;
        }
    }
    changes.len() == 10
}

fn has_texts(case: &Case, dumps: &[&[u8]], changes: &[(usize, &[u8])]) -> bool {
    case.spec.as_bytes() == SPEC
        && are_dumps(&case.dumps, dumps)
        && are_changes(&case.changes, changes)
}

fn smallest_is_told(alloc: Global) -> Result<bool, NoMemory> {
    let case = make_case(alloc, 0, 1)?;
    Ok(has_texts(&case, SMALLEST_DUMPS, SMALLEST_CHANGES))
}

fn ten_employees_are_told(alloc: Global) -> Result<bool, NoMemory> {
    let case = make_case(alloc, 3, 10)?;
    Ok(has_texts(&case, TEN_DUMPS, TEN_CHANGES))
}

#[test]
fn smallest_case(rt: HostRuntime) -> Result<(), Fail> {
    assert!(rt; smallest_is_told(rt.alloc())?);
    Ok(())
}

#[test]
fn ten_employees(rt: HostRuntime) -> Result<(), Fail> {
    assert!(rt; ten_employees_are_told(rt.alloc())?);
    Ok(())
}
