ghost use Rattle.std.specs.Prelude.{◌≡◌, ◌≢◌, ◌+◌, ◌<◌, ◌^◌, length, Ok, Err, IfOk, IfErr};
ghost use Rattle.wh_schema.specs.Heads.{heads_of};
ghost use Rattle.wh_query_text.specs.QueryTexts.{raw_of_text, query_of_expr, query_of_text};
ghost use Rattle.wh_query_text.specs.QueryLaws.{AnswersAreTyped, AnswersAreTextual};

use crate::fault::QueryFault;
use crate::raw::RawQuery;
use crate::reading::whole_query;
use crate::resolving::{expr_of, known_names, place_of_fault};
use std::alloc::Global;
use wh_base::{Attrs, Heads};
use wh_expr::{Expr, TypeFault, typed};
use wh_grammar::{Cursor, TextFault, scan};
use wh_schema::{Spec, heads};

/// An expression over the relations and views of a specification, and its attributes in order.
#[derive(Debug, Drop)]
pub struct Query {
    pub expr: Expr,
    pub attrs: Attrs,
}

/// What a text spells, or its first fault: of its tokens, else of its nesting, else of the grammar.
fn parse_raw(alloc: Global, text: &[u8]) -> Result<RawQuery, TextFault>
    ensures ok { IfOk result (λ raw. raw_of_text text.now ≡ Ok raw) }
    ensures fault { IfErr result (λ e. e ≢ TextFault.NoMemory → raw_of_text text.now ≡ Err e) }
{
    let tokens = scan(alloc, text)?;
    let mut cursor = Cursor::new(text, tokens.as_slice());
    let raw = whole_query(alloc, &mut cursor, tokens.len())?;
    Ok(raw)
}

/// The query of an expression, or its first broken rule with its place.
fn ruled(
    alloc: Global,
    raw: &RawQuery,
    expr: Expr,
    spec: &Spec,
    heads: &Heads,
) -> Result<Query, QueryFault>
    requires { heads.now ≡ heads_of spec.now }
    ensures ok { IfOk result (λ q. query_of_expr spec.now raw.now expr ≡ Ok q) }
    ensures fault { IfErr result (λ e. e ≢ QueryFault.NoMemory → query_of_expr spec.now raw.now expr ≡ Err e) }
{
    match typed(alloc, &expr, heads) {
        Ok(attrs) => Ok(Query { expr, attrs }),
        Err(TypeFault::At { cause, path }) => Err(QueryFault::Rule {
            at: place_of_fault(raw, cause, path.as_slice()),
            cause,
        }),
        Err(TypeFault::NoMemory) => Err(QueryFault::NoMemory),
    }
}

/// The query that the text spells over the relations and views of the specification, or its first fault: lexical, then of
/// nesting, then of the grammar, then of the rules. A complement has no name in a query.
pub fn parse_query(alloc: Global, text: &[u8], spec: &Spec) -> Result<Query, QueryFault>
    requires { length spec.now.relations + length spec.now.relations + length spec.now.views < 2 ^ 32 }
    ensures ok { IfOk result (λ q. query_of_text spec.now text.now ≡ Ok q) }
    ensures fault { IfErr result (λ e. e ≢ QueryFault.NoMemory → query_of_text spec.now text.now ≡ Err e) }
{
    let raw = parse_raw(alloc, text)?;
    let heads = heads(alloc, spec)?;
    let known = known_names(alloc, spec)?;
    let expr = expr_of(alloc, &raw, known.as_slice(), heads.len() as u32)?;
    ruled(alloc, &raw, expr, spec, &heads)
}

/// Every query that a text gives names relations and views alone, breaks no rule, and has the attributes of its expression.
pub fn answers_are_typed()
    ensures { AnswersAreTyped }
{}

/// Every query that a text gives is given by its printed form too.
pub fn answers_are_textual()
    ensures { AnswersAreTextual }
{}
