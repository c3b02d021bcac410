// Numbers as bytes, the highest byte first.
ghost use Rattle.std.specs.Prelude.{◌≡◌, ◌++◌, OnOk};
ghost use Rattle.std.specs.Int.{w16, w32, w64, to_be_bytes};
ghost use Rattle.wh_codec.specs.Reading.{Gives, number_at, front_at};

use crate::fault::FrameFault;
use byteorder::{BigEndian, ByteOrder};
use wh_base::{ByteText, NoMemory};

pub(crate) fn put_u16(out: &mut ByteText, number: u16) -> Result<(), NoMemory>
    ensures { OnOk result (out.new.bytes ≡ out.old.bytes ++ to_be_bytes w16 number) }
{
    let mut buffer = [0; 2];
    BigEndian::write_u16(&mut buffer, number);
    out.append(&buffer)
}

pub(crate) fn put_u32(out: &mut ByteText, number: u32) -> Result<(), NoMemory>
    ensures { OnOk result (out.new.bytes ≡ out.old.bytes ++ to_be_bytes w32 number) }
{
    let mut buffer = [0; 4];
    BigEndian::write_u32(&mut buffer, number);
    out.append(&buffer)
}

pub(crate) fn put_u64(out: &mut ByteText, number: u64) -> Result<(), NoMemory>
    ensures { OnOk result (out.new.bytes ≡ out.old.bytes ++ to_be_bytes w64 number) }
{
    let mut buffer = [0; 8];
    BigEndian::write_u64(&mut buffer, number);
    out.append(&buffer)
}

pub(crate) fn u16_at(bytes: &[u8]) -> Result<(u16, &[u8]), FrameFault>
    ensures { Gives (λ x. (x.0, x.1.now)) result (number_at w16 bytes.now) }
{
    if bytes.len() < 2 {
        return Err(FrameFault::Bad);
    }
    let (front, rest) = bytes.split_at(2);
    Ok((u16::from_be_bytes([front[0], front[1]]), rest))
}

pub(crate) fn u32_at(bytes: &[u8]) -> Result<(u32, &[u8]), FrameFault>
    ensures { Gives (λ x. (x.0, x.1.now)) result (number_at w32 bytes.now) }
{
    if bytes.len() < 4 {
        return Err(FrameFault::Bad);
    }
    let (front, rest) = bytes.split_at(4);
    let number = u32::from_be_bytes([front[0], front[1], front[2], front[3]]);
    Ok((number, rest))
}

pub(crate) fn u64_at(bytes: &[u8]) -> Result<(u64, &[u8]), FrameFault>
    ensures { Gives (λ x. (x.0, x.1.now)) result (number_at w64 bytes.now) }
{
    if bytes.len() < 8 {
        return Err(FrameFault::Bad);
    }
    let (front, rest) = bytes.split_at(8);
    let number = u64::from_be_bytes([
        front[0], front[1], front[2], front[3], front[4], front[5], front[6], front[7],
    ]);
    Ok((number, rest))
}

pub(crate) fn front_at(bytes: &[u8], len: usize) -> Result<(&[u8], &[u8]), FrameFault>
    ensures { Gives (λ x. (x.0.now, x.1.now)) result (front_at len bytes.now) }
{
    if bytes.len() < len {
        return Err(FrameFault::Bad);
    }
    Ok(bytes.split_at(len))
}
