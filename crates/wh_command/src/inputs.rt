// What a command reads: files, a specification, dumps.
ghost use Rattle.std.specs.Prelude.{◌≡◌, [], get_or, map, None, Some, IfErr, IfOk, IfSome, string_bytes};
ghost use Rattle.std.specs.Option.{option_map};
ghost use Rattle.wh_base.specs.RowSet.{AreDistinct};
ghost use Rattle.wh_covers.specs.Covers.{IsNumbered};
ghost use Rattle.wh_io.specs.Causes.{IsCounted};
ghost use Rattle.wh_load.specs.Load.{HasDistinctRows};
ghost use Rattle.wh_plan.specs.Plan.{IsPlan, too_many};
ghost use Rattle.wh_spec_text.specs.SpecTexts.{spec_of_text};
ghost use Rattle.wh_command.specs.Inputs.{and_then, file_of, parsed, planned, spec_in, spec_file, dump_name, dump_in, dump_file, dump_files, IsFromText, IsDumpOf, AreDumpsOf, IsNextDump};
ghost use Rattle.wh_command.specs.RefreshSteps.{IsReadStop};
ghost use Rattle.wh_command.specs.Words.{pieces_words};
ghost use Rattle.wh_command.specs.Steps.{Settles, NamesRead, BlamesFiles, BlamesNone, plan_spec, is_read_fault};

use crate::stop::Stop;
use crate::words;
use std::alloc::{AllocError, Global};
use wh_base::{Bytes, Duplicate, Name, Names, NoMemory, Rows, State};
use wh_csv::{CsvFault, read_dump};
use wh_io::{FileFault, Files};
use wh_plan::{Plan, PlanFault, make_plan};
use wh_schema::{Relation, Spec};
use wh_spec_text::{SpecTextFault, parse_spec};

const FILE_LIMIT: u64 = 268_435_456;

/// Reads a whole file, or says why not.
pub fn read_file<F: Files>(alloc: Global, files: &mut F, name: &str) -> Result<Bytes, Stop>
    ensures answer { Settles (option_map (λ held. file_of (held name.now) name.now) (F.held files.old)) result }
    ensures names { NamesRead (λ file. file ≡ name.now) result }
    ensures stops { IfErr result (IsReadStop name.now) }
    ensures same { F.held files.new ≡ F.held files.old }
    ensures blames { BlamesFiles result }
    ensures cause { IsCounted (is_read_fault result) (F.faults files.old) (F.faults files.new) }
{
    // The name is copied first, since a failed read is told without further memory.
    let file = Bytes::from_vec(Vec::from_slice(alloc, name.as_bytes())?);
    match files.read(alloc, name, FILE_LIMIT) {
        Ok(text) => Ok(text.into_bytes()),
        Err(FileFault::Missing) => Err(Stop::NoFile(file)),
        Err(FileFault::TooLong) => Err(Stop::Limit(words::file_limit(alloc, file.as_slice())?)),
        Err(FileFault::Failed) => Err(Stop::ReadFault(file)),
        Err(FileFault::NoMemory) => Err(Stop::NoMemory),
    }
}

/// Reads a specification, and makes its plan.
pub fn read_plan<F: Files>(alloc: Global, files: &mut F, name: &str) -> Result<Plan, Stop>
    ensures answer { Settles (option_map (λ held. spec_file held name.now) (F.held files.old)) (plan_spec result) }
    ensures numbered { IfOk result (λ plan. IsNumbered plan.spec) }
    ensures text { IfOk result (λ plan. IsFromText plan.spec) }
    ensures plan { IfOk result IsPlan }
    ensures few { IfOk result (λ plan. too_many plan.spec ≡ None) }
    ensures names { NamesRead (λ file. file ≡ name.now) result }
    ensures same { F.held files.new ≡ F.held files.old }
    ensures blames { BlamesFiles result }
    ensures cause { IsCounted (is_read_fault result) (F.faults files.old) (F.faults files.new) }
{
    let text = read_file(alloc, files, name)?;
    plan_in(alloc, &text)
}

fn plan_in(alloc: Global, text: &Bytes) -> Result<Plan, Stop>
    ensures answer { Settles (Some (spec_in text.now)) (plan_spec result) }
    ensures numbered { IfOk result (λ plan. IsNumbered plan.spec) }
    ensures text { IfOk result (λ plan. IsFromText plan.spec) }
    ensures plan { IfOk result IsPlan }
    ensures few { IfOk result (λ plan. too_many plan.spec ≡ None) }
    ensures blames { BlamesNone result }
{
    let spec = parse(alloc, text)?;
    plan_of(alloc, spec)
}

fn parse(alloc: Global, text: &Bytes) -> Result<Spec, Stop>
    ensures answer { Settles (Some (parsed text.now (spec_of_text text.now))) result }
    ensures numbered { IfOk result IsNumbered }
    ensures text { IfOk result IsFromText }
    ensures blames { BlamesNone result }
{
    match parse_spec(alloc, text.as_slice()) {
        Ok(spec) => Ok(spec),
        Err(SpecTextFault::NoMemory) => Err(Stop::NoMemory),
        Err(fault) => Err(Stop::BadSpec(words::spec_fault(alloc, text.as_slice(), &fault)?)),
    }
}

fn plan_of(alloc: Global, spec: Spec) -> Result<Plan, Stop>
    requires numbered { IsNumbered spec }
    requires text { IsFromText spec }
    ensures answer { Settles (Some (planned spec (too_many spec))) (plan_spec result) }
    ensures numbered { IfOk result (λ plan. IsNumbered plan.spec) }
    ensures text { IfOk result (λ plan. IsFromText plan.spec) }
    ensures plan { IfOk result IsPlan }
    ensures few { IfOk result (λ plan. too_many plan.spec ≡ None) }
    ensures blames { BlamesNone result }
{
    let names = relation_names(alloc, &spec)?;
    match make_plan(alloc, spec) {
        Ok(plan) => Ok(plan),
        Err(PlanFault::TooManyPieces { relation, count }) => Err(Stop::BadSpec(too_many(
            alloc, &names, relation, count,
        )?)),
        Err(PlanFault::NoMemory) => Err(Stop::NoMemory),
    }
}

// The names of the relations, for a plan that takes the specification in.
fn relation_names(alloc: Global, spec: &Spec) -> Result<Names, NoMemory>
    ensures { IfOk result (λ names. names ≡ map (λ r. r.name) spec.now.relations) }
{
    let mut names = Names::new(alloc);
    for relation in spec.relations.as_slice() {
        names.push(relation.name.copy(alloc)?)?;
    }
    Ok(names)
}

#[tactic(auto, using(crate::proofs::Numbered::get_or_none))]
fn too_many(alloc: Global, names: &Names, relation: u32, count: u32) -> Result<Bytes, NoMemory>
    ensures { IfOk result (λ words. words ≡ pieces_words (get_or names.now relation []) count) }
{
    match names.get(relation as usize) {
        Some(name) => words::too_many_pieces(alloc, name, count),
        None => words::too_many_pieces(alloc, &Name::new(alloc), count),
    }
}

/// Reads the dumps of a specification's relations, in their order.
pub fn read_dumps<F: Files>(
    alloc: Global,
    files: &mut F,
    dir: &str,
    relations: &[Relation],
) -> Result<State, Stop>
    ensures answer { Settles (option_map (λ held. dump_files held dir.now [] relations.now) (F.held files.old)) result }
    ensures distinct { IfOk result HasDistinctRows }
    ensures dumps { IfOk result (AreDumpsOf relations.now) }
    ensures names { IfSome (F.held files.old) (λ held. NamesRead (IsNextDump held dir.now relations.now) result) }
    ensures same { F.held files.new ≡ F.held files.old }
    ensures blames { BlamesFiles result }
    ensures cause { IsCounted (is_read_fault result) (F.faults files.old) (F.faults files.new) }
{
    let mut state = State::new(alloc);
    for relation in relations {
        match read_rows(alloc, files, dir, relation) {
            Ok(rows) => state.push(rows)?,
            Err(stop) => return Err(stop),
        }
    }
    Ok(state)
}

fn read_rows<F: Files>(
    alloc: Global,
    files: &mut F,
    dir: &str,
    relation: &Relation,
) -> Result<Rows, Stop>
    ensures answer { Settles (option_map (λ held. dump_file held dir.now relation.now) (F.held files.old)) result }
    ensures distinct { IfOk result AreDistinct }
    ensures dump { IfOk result (IsDumpOf relation.now) }
    ensures names { NamesRead (λ file. file ≡ dump_name dir.now relation.now.name) result }
    ensures same { F.held files.new ≡ F.held files.old }
    ensures blames { BlamesFiles result }
    ensures cause { IsCounted (is_read_fault result) (F.faults files.old) (F.faults files.new) }
{
    let name = dump_name(alloc, dir, &relation.name)?;
    read_named(alloc, files, name.as_str(), relation)
}

fn dump_name(alloc: Global, dir: &str, name: &Name) -> Result<String, AllocError>
    ensures { IfOk result (λ file. string_bytes file ≡ dump_name dir.now name.now) }
{
    let name = String::from_utf8_lossy(alloc, name.as_slice())?;
    format!(in alloc; "{dir}/{name}.csv")
}

/// Reads a dump of a relation.
pub fn read_named<F: Files>(
    alloc: Global,
    files: &mut F,
    file: &str,
    relation: &Relation,
) -> Result<Rows, Stop>
    ensures answer { Settles (option_map (λ held. and_then (file_of (held file.now) file.now) (dump_in file.now relation.now.attrs)) (F.held files.old)) result }
    ensures distinct { IfOk result AreDistinct }
    ensures dump { IfOk result (IsDumpOf relation.now) }
    ensures names { NamesRead (λ name. name ≡ file.now) result }
    ensures same { F.held files.new ≡ F.held files.old }
    ensures blames { BlamesFiles result }
    ensures cause { IsCounted (is_read_fault result) (F.faults files.old) (F.faults files.new) }
{
    let text = read_file(alloc, files, file)?;
    rows_in(alloc, file, relation, &text)
}

fn rows_in(alloc: Global, file: &str, relation: &Relation, text: &Bytes) -> Result<Rows, Stop>
    ensures answer { Settles (Some (dump_in file.now relation.now.attrs text.now)) result }
    ensures distinct { IfOk result AreDistinct }
    ensures dump { IfOk result (IsDumpOf relation.now) }
    ensures blames { BlamesNone result }
{
    match read_dump(alloc, text.as_slice(), relation) {
        Ok(rows) => Ok(rows),
        Err(CsvFault::At { at, cause }) => Err(Stop::BadInput(words::dump_fault(
            alloc,
            file.as_bytes(),
            at,
            cause,
        )?)),
        Err(CsvFault::NoMemory) => Err(Stop::NoMemory),
    }
}
