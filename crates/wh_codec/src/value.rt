// Values as bytes.
ghost use Rattle.std.specs.Prelude.{◌≡◌, ◌++◌, ◌∷◌, ◌<◌, ◌^◌, length, OnOk};
ghost use Rattle.std.specs.Str.{is_utf8};
ghost use Rattle.wh_codec.specs.Body.{IsSpelledValue, value_bytes};
ghost use Rattle.wh_codec.specs.Reading.{Gives, int_at, text_at, value_at};

use crate::fault::FrameFault;
use crate::numbers::{front_at, put_u16, put_u64, u16_at, u64_at};
use std::alloc::Global;
use wh_base::{ByteText, NoMemory, Sequence, Value};

const INT: u8 = 1;

const TEXT: u8 = 2;

#[tactic(auto, unfolding(crate::specs::Reading::int_at))]
fn int_at(bytes: &[u8]) -> Result<(Value, &[u8]), FrameFault>
    ensures { Gives (λ x. (x.0, x.1.now)) result (int_at bytes.now) }
{
    let (number, rest) = u64_at(bytes)?;
    Ok((Value::Int(number.cast_signed()), rest))
}

fn is_utf8(bytes: &[u8]) -> bool
    ensures { result ≡ is_utf8 bytes.now }
{
    matches!(std::str::from_utf8(bytes), Ok(_))
}

#[tactic(auto, unfolding(crate::specs::Reading::text_at))]
fn text_at(alloc: Global, bytes: &[u8]) -> Result<(Value, &[u8]), FrameFault>
    ensures { Gives (λ x. (x.0, x.1.now)) result (text_at bytes.now) }
{
    let (len, rest) = u16_at(bytes)?;
    let (text, rest) = front_at(rest, len as usize)?;
    if !is_utf8(text) {
        return Err(FrameFault::Bad);
    }
    let text = Sequence::from_vec(Vec::from_slice(alloc, text)?);
    Ok((Value::Text(text), rest))
}

#[tactic(auto, unfolding(crate::specs::Reading::value_at))]
pub(crate) fn read_value(alloc: Global, bytes: &[u8]) -> Result<(Value, &[u8]), FrameFault>
    ensures { Gives (λ x. (x.0, x.1.now)) result (value_at bytes.now) }
{
    match bytes {
        [1, rest @ ..] => int_at(rest),
        [2, rest @ ..] => text_at(alloc, rest),
        _ => Err(FrameFault::Bad),
    }
}

pub(crate) fn put_value(out: &mut ByteText, value: &Value) -> Result<(), NoMemory>
    requires { IsSpelledValue value.now }
    ensures { OnOk result (out.new.bytes ≡ out.old.bytes ++ value_bytes value.now) }
{
    match value {
        Value::Int(number) => {
            out.push(INT)?;
            put_u64(out, number.cast_unsigned())
        }
        Value::Text(text) => {
            out.push(TEXT)?;
            put_u16(out, text.len() as u16)?;
            out.append(text.as_slice())
        }
    }
}
