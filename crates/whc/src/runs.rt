// Runs over devices in memory, and how they end. What a run is handed is made in parts, and lent to what asks for its end:
// a function that owns little and has few exits is proved soon.
use crate::run::run;
use std::alloc::Global;
use wh_base::{ByteText, Name, Names, NoMemory, Numbers, Texts};
use wh_command::Status;
use wh_io::{MemDisk, MemFiles, MemSink};
use wh_steps::{NoLedger, Steps};

// Files by name.
pub(crate) type Held<'a> = &'a [(&'a str, &'a [u8])];

// A run: its words, the files that are held, and the calls that fail.
#[derive(Clone, Copy)]
pub(crate) struct Case<'a> {
    pub(crate) words: &'a [&'a str],
    pub(crate) held: Held<'a>,
    pub(crate) read_fails: &'a [u64],
    pub(crate) out_most: u64,
    pub(crate) out_fails: &'a [u64],
    pub(crate) err_fails: &'a [u64],
}

// What a run comes to: the status, and what stands on `out` and on `err`.
#[derive(Clone, Copy)]
pub(crate) struct End<'a>(pub(crate) Status, pub(crate) &'a str, pub(crate) &'a str);

pub(crate) fn show<'a>(words: &'a [&'a str], held: Held<'a>) -> Case<'a> {
    Case {
        words,
        held,
        read_fails: &[],
        out_most: 1000,
        out_fails: &[],
        err_fails: &[],
    }
}

// The two files of a store, as disks.
#[derive(Drop)]
pub(crate) struct Store {
    pub(crate) first: MemDisk,
    pub(crate) second: MemDisk,
}

#[derive(Drop)]
struct Sinks {
    out: MemSink,
    err: MemSink,
}

// What a run is handed beside the store.
#[derive(Drop)]
struct Outside {
    words: Vec<String>,
    files: MemFiles,
    sinks: Sinks,
}

pub(crate) fn numbers(alloc: Global, listed: &[u64]) -> Result<Numbers, NoMemory> {
    let mut numbers = Numbers::new(alloc);
    for number in listed {
        numbers.push(*number)?;
    }
    Ok(numbers)
}

fn words_of(alloc: Global, listed: &[&str]) -> Result<Vec<String>, NoMemory> {
    let mut words = Vec::new(alloc);
    for word in listed {
        words.push(String::from_str(alloc, word)?)?;
    }
    Ok(words)
}

fn name(alloc: Global, text: &str) -> Result<Name, NoMemory> {
    Ok(Name::from_vec(Vec::from_slice(alloc, text.as_bytes())?))
}

fn names(alloc: Global, held: Held<'_>) -> Result<Names, NoMemory> {
    let mut names = Names::new(alloc);
    for (text, _content) in held {
        names.push(name(alloc, text)?)?;
    }
    Ok(names)
}

fn contents(alloc: Global, held: Held<'_>) -> Result<Texts, NoMemory> {
    let mut contents = Texts::new(alloc);
    for (_name, content) in held {
        contents.push(ByteText::from_slice(alloc, content)?)?;
    }
    Ok(contents)
}

fn files_of(names: Names, contents: Texts, fails: Numbers) -> Result<MemFiles, NoMemory> {
    if names.len() == contents.len() {
        Ok(MemFiles::new(names, contents, fails))
    } else {
        Err(NoMemory)
    }
}

fn files(alloc: Global, held: Held<'_>, fails: &[u64]) -> Result<MemFiles, NoMemory> {
    let names = names(alloc, held)?;
    let contents = contents(alloc, held)?;
    let fails = numbers(alloc, fails)?;
    files_of(names, contents, fails)
}

fn sink(alloc: Global, most: u64, fails: &[u64]) -> Result<MemSink, NoMemory> {
    let fails = numbers(alloc, fails)?;
    if most > 0 {
        MemSink::new(alloc, most, 1000, fails)
    } else {
        Err(NoMemory)
    }
}

fn make_sinks(alloc: Global, case: &Case<'_>) -> Result<Sinks, NoMemory> {
    let out = sink(alloc, case.out_most, case.out_fails)?;
    let err = sink(alloc, 1000, case.err_fails)?;
    Ok(Sinks { out, err })
}

fn make_outside(alloc: Global, case: &Case<'_>) -> Result<Outside, NoMemory> {
    let words = words_of(alloc, case.words)?;
    let files = files(alloc, case.held, case.read_fails)?;
    let sinks = make_sinks(alloc, case)?;
    Ok(Outside {
        words,
        files,
        sinks,
    })
}

fn run_over(
    alloc: Global,
    outside: &mut Outside,
    store: &mut Store,
    counts: &mut Steps<NoLedger>,
) -> Status {
    run(
        alloc,
        &outside.words,
        &mut outside.files,
        &mut outside.sinks.out,
        &mut outside.sinks.err,
        &mut store.first,
        &mut store.second,
        counts,
    )
}

fn is_end(end: &End<'_>, status: Status, sinks: &Sinks) -> bool {
    status == end.0
        && sinks.out.taken() == end.1.as_bytes()
        && sinks.err.taken() == end.2.as_bytes()
}

// Whether a run over a store comes to this end.
pub(crate) fn ends(
    alloc: Global,
    counts: &mut Steps<NoLedger>,
    store: &mut Store,
    case: &Case<'_>,
    end: &End<'_>,
) -> Result<bool, NoMemory> {
    let mut outside = make_outside(alloc, case)?;
    let status = run_over(alloc, &mut outside, store, counts);
    Ok(is_end(end, status, &outside.sinks))
}

// How a run over a store ends, and what it prints.
pub(crate) fn answer(
    alloc: Global,
    counts: &mut Steps<NoLedger>,
    store: &mut Store,
    case: &Case<'_>,
) -> Result<(Status, ByteText), NoMemory> {
    let mut outside = make_outside(alloc, case)?;
    let status = run_over(alloc, &mut outside, store, counts);
    let text = ByteText::from_slice(alloc, outside.sinks.out.taken())?;
    Ok((status, text))
}

// A disk with room for so many bytes and calls, some of which fail.
fn disk_with(
    alloc: Global,
    bytes: &[u8],
    room: u64,
    calls: u64,
    fails: &[u64],
) -> Result<MemDisk, NoMemory> {
    let content = ByteText::from_slice(alloc, bytes)?;
    let fails = numbers(alloc, fails)?;
    MemDisk::new(alloc, content, room, calls, fails)
}

pub(crate) fn disk(alloc: Global, bytes: &[u8], fails: &[u64]) -> Result<MemDisk, NoMemory> {
    disk_with(alloc, bytes, 4000, 100, fails)
}

// A store of two disks without any room.
fn no_store(alloc: Global) -> Result<Store, NoMemory> {
    let first = disk_with(alloc, b"", 0, 0, &[])?;
    let second = disk_with(alloc, b"", 0, 0, &[])?;
    Ok(Store { first, second })
}

// Whether a run apart from a store comes to this end.
pub(crate) fn ends_apart(
    alloc: Global,
    counts: &mut Steps<NoLedger>,
    case: &Case<'_>,
    end: &End<'_>,
) -> Result<bool, NoMemory> {
    let mut store = no_store(alloc)?;
    ends(alloc, counts, &mut store, case, end)
}
