ghost use Rattle.std.specs.Prelude.{◌≡◌, ◌++◌, OnOk};
ghost use Rattle.wh_lex.specs.Spelling.{doubled, quoted};
ghost use Rattle.wh_grammar.specs.Printed as spec;
ghost use Rattle.wh_grammar.specs.Printable.{IsShownByText, IsReadFromText};

use itoa::Buffer;
use wh_base::{ByteText, Cond, NoMemory, Op, Operand};

/// Appends a text in quotes.
fn quote(out: &mut ByteText, text: &[u8]) -> Result<(), NoMemory>
    ensures { OnOk result (out.new.bytes ≡ out.old.bytes ++ quoted text.now) }
{
    out.push(b'\'')?;
    let mut rest = text;
    'next: while let [b, more @ ..] = rest {
        if *b == b'\'' {
            out.push(b'\'')?;
        }
        out.push(*b)?;
        rest = more;
    }
    out.push(b'\'')?;
    Ok(())
}

fn print_operand(out: &mut ByteText, operand: &Operand) -> Result<(), NoMemory>
    ensures { OnOk result (out.new.bytes ≡ out.old.bytes ++ spec.operand_text operand.now) }
{
    match operand {
        Operand::Attr(name) => out.append(name.as_slice()),
        Operand::Int(value) => {
            let mut buffer = Buffer::new();
            out.append(buffer.format(*value).as_bytes())
        }
        Operand::Text(text) => quote(out, text.as_slice()),
    }
}

fn op_text(op: Op) -> &'static [u8]
    ensures { result.now ≡ spec.op_text op }
{
    match op {
        Op::Eq => b"=",
        Op::Ne => b"<>",
        Op::Lt => b"<",
        Op::Le => b"<=",
        Op::Gt => b">",
        Op::Ge => b">=",
    }
}

fn is_or(cond: &Cond) -> bool
    ensures { result ≡ spec.is_or cond.now }
{
    match cond {
        Cond::Or(_, _) => true,
        Cond::Always | Cond::Cmp(_, _, _) | Cond::Not(_) | Cond::And(_, _) => false,
    }
}

fn is_compound(cond: &Cond) -> bool
    ensures { result ≡ spec.is_compound cond.now }
{
    match cond {
        Cond::And(_, _) | Cond::Or(_, _) => true,
        Cond::Always | Cond::Cmp(_, _, _) | Cond::Not(_) => false,
    }
}

/// Appends a condition in parentheses, or as it is.
#[cycle(print)]
fn print_held(out: &mut ByteText, cond: &Cond, in_parentheses: bool) -> Result<(), NoMemory>
    ensures { OnOk result (out.new.bytes ≡ out.old.bytes ++ spec.held in_parentheses (spec.printed cond.now)) }
{
    if in_parentheses {
        out.push(b'(')?;
        print_cond(out, cond)?;
        out.push(b')')?;
        Ok(())
    } else {
        print_cond(out, cond)
    }
}

/// Appends a condition, with as few parentheses as there can be. Where memory runs out, a part of it may have been appended.
#[tactic(auto, using(crate::proofs::PrintedLemmas::printed_compare, crate::proofs::PrintedLemmas::printed_not, crate::proofs::PrintedLemmas::printed_and, crate::proofs::PrintedLemmas::printed_or))]
#[cycle(print)]
pub fn print_cond(out: &mut ByteText, cond: &Cond) -> Result<(), NoMemory>
    ensures { OnOk result (out.new.bytes ≡ out.old.bytes ++ spec.printed cond.now) }
{
    match cond {
        Cond::Always => {}
        Cond::Cmp(left, op, right) => {
            print_operand(out, left)?;
            out.push(b' ')?;
            out.append(op_text(*op))?;
            out.push(b' ')?;
            print_operand(out, right)?;
        }
        Cond::Not(inner) => {
            out.append(b"not ")?;
            print_held(out, inner.get(), is_compound(inner.get()))?;
        }
        Cond::And(left, right) => {
            print_held(out, left.get(), is_or(left.get()))?;
            out.append(b" and ")?;
            print_held(out, right.get(), is_compound(right.get()))?;
        }
        Cond::Or(left, right) => {
            print_cond(out, left.get())?;
            out.append(b" or ")?;
            print_held(out, right.get(), is_or(right.get()))?;
        }
    }
    Ok(())
}

/// The text of a condition is lexed as tokens that show it, and these are read as the condition.
pub fn reads_printed_cond()
    ensures shown { IsShownByText }
    ensures read { IsReadFromText }
{}
