//! Numbers in groups of 7 bits, the lowest first.
ghost use Rattle.std.specs.Prelude.{◌≡◌, ℕ, ◌<◌, ◌++◌, drop, OnOk, slice_index};
ghost use Rattle.lrat_log.specs.Packed.{packed_number};
ghost use Rattle.lrat_log.specs.Steps.Unpacked.{values, first, IsWord};

use cnf_core::NoMemory;

/// Puts a number behind the bytes.
pub fn push_number(bytes: &mut Vec<u8>, number: u64) -> Result<(), NoMemory>
    ensures bytes { OnOk result (bytes.new.items ≡ bytes.old.items ++ packed_number number) }
    ensures word { IsWord number }
{
    let mut left = number;
    while left >= 128 {
        bytes.push((left % 128) as u8 + 128)?;
        left /= 128;
    }
    bytes.push(left as u8)?;
    Ok(())
}

/// A number that was read, and the place behind it.
#[derive(Clone, Copy, Debug)]
pub struct Number {
    pub value: u64,
    pub end: usize,
}

/// The number at a place, or 0 at the end.
#[inline(always)]
pub fn number_at(bytes: &[u8], at: usize) -> Number
    requires { IsWord (first (values (drop at bytes.now))) }
    ensures value { result.value ≡ first (values (drop at bytes.now)) }
    ensures rest { values (drop result.end bytes.now) ≡ drop 1 (values (drop at bytes.now)) }
{
    let mut value = 0;
    let mut weight = 1u64;
    for k in at..bytes.len() {
        let byte = bytes[k];
        if byte < 128 {
            return Number {
                value: value + u64::from(byte) * weight,
                end: k + 1,
            };
        }
        value += u64::from(byte - 128) * weight;
        weight = weight.wrapping_mul(128);
    }
    Number {
        value,
        end: bytes.len(),
    }
}

/// The place behind so many numbers from a place on.
pub fn skip(bytes: &[u8], start: usize, count: u64) -> usize
    requires { (k : ℕ) → k < count → IsWord (slice_index (values (drop start bytes.now)) k) }
    ensures { values (drop result bytes.now) ≡ drop count (values (drop start bytes.now)) }
{
    let mut at = start;
    for _k in 0..count {
        at = number_at(bytes, at).end;
    }
    at
}
