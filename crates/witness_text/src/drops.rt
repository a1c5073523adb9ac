//! The parts of a drop line.
ghost use Rattle.std.specs.Prelude.{◌≡◌, ◌<◌, ◌≤◌, ◌-◌, ◌^◌, min, length};
ghost use Rattle.std.specs.List.{list_all};
ghost use Rattle.std.specs.Char.{is_ascii_digit};
ghost use Rattle.cnf_core.specs.Spelling.{digits_value};
ghost use Rattle.witness_text.specs.Reading.{
  before_space,
  behind_space,
  is_padded,
  is_plain,
  number_below,
  signed_literal,
  literal_within,
  value_of_digit,
  drop_of,
};

use crate::WitnessLine;
use cnf_core::Lit;

/// The drop line that names a literal of the variables 1 to `vars` and one of `count` models, from the
/// bytes behind its letter and space.
pub fn read_drop(line: &[u8], vars: u32, count: u64) -> Option<WitnessLine>
    requires { vars ≤ 2 ^ 20 }
    ensures { result ≡ drop_of vars count line.now }
{
    let (number, rest) = split_at_space(line);
    let (model, flip) = split_at_space(rest);
    Some(WitnessLine {
        lit: read_literal(number, vars)?,
        model: read_number(model, count)?,
        flip: read_flip(flip)?,
    })
}

/// The bytes before the first space, or all of them, and the bytes behind it.
fn split_at_space(bytes: &[u8]) -> (&[u8], &[u8])
    ensures before { result.0.now ≡ before_space bytes.now }
    ensures behind { result.1.now ≡ behind_space bytes.now }
{
    for (i, byte) in bytes.iter().enumerate() {
        if *byte == b' ' {
            return (&bytes[..i], &bytes[i + 1..]);
        }
    }
    (bytes, &[])
}

/// The literal of the variables 1 to `vars` that a minus sign, where there is one, and plain digits write.
fn read_literal(bytes: &[u8], vars: u32) -> Option<Lit>
    requires { vars ≤ 2 ^ 20 }
    ensures { result ≡ literal_within vars bytes.now }
{
    match bytes {
        [b'-', digits @ ..] => read_signed(digits, vars, false),
        _ => read_signed(bytes, vars, true),
    }
}

/// The literal of this sign whose variable is one of 1 to `vars` and written in plain digits.
fn read_signed(digits: &[u8], vars: u32, positive: bool) -> Option<Lit>
    requires { vars ≤ 2 ^ 20 }
    ensures { result ≡ signed_literal vars positive digits.now }
{
    let var = read_number(digits, u64::from(vars) + 1)?;
    if var == 0 {
        return None;
    }
    Some(Lit::new(var as u32, positive))
}

/// The number that plain digits write, if it is below the limit.
fn read_number(digits: &[u8], limit: u64) -> Option<u64>
    ensures { result ≡ number_below limit digits.now }
{
    if !is_plain(digits) {
        return None;
    }
    let number = capped_value(digits);
    if number < limit { Some(number) } else { None }
}

/// Whether these are one or more digits without leading zeros.
fn is_plain(digits: &[u8]) -> bool
    ensures { result ≡ is_plain digits.now }
{
    are_digits(digits) && !digits.is_empty() && !is_padded(digits)
}

/// Whether each byte is a digit.
fn are_digits(bytes: &[u8]) -> bool
    ensures { result ≡ list_all is_ascii_digit bytes.now }
{
    bytes.iter().all(|byte| byte.is_ascii_digit())
}

/// Whether a 0 stands before further digits.
fn is_padded(digits: &[u8]) -> bool
    ensures { result ≡ is_padded digits.now }
{
    digits.len() > 1 && digits[0] == b'0'
}

/// The number that digits write, or 2^64 - 1 where it is larger.
fn capped_value(digits: &[u8]) -> u64
    ensures { result ≡ min (digits_value digits.now) (2 ^ 64 - 1) }
{
    let mut number = 0_u64;
    for digit in digits {
        let units = u64::from(digit.saturating_sub(b'0'));
        number = number.saturating_mul(10).saturating_add(units);
    }
    number
}

/// Whether the drop is by a flip: the truth value that one digit writes.
fn read_flip(bytes: &[u8]) -> Option<bool>
    ensures { result ≡ value_of_digit bytes.now }
{
    match bytes {
        b"0" => Some(false),
        b"1" => Some(true),
        _ => None,
    }
}
