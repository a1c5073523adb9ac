ghost use Rattle.std.specs.Prelude.{◌≡◌, ◌<◌, ◌≤◌, ◌^◌, ◌*◌, ◌+◌, [], ◌∷◌, ℕ, false, if◌then◌else◌, length, take, drop, filter, option_map};
ghost use Rattle.std.specs.Prelude.{IfSome, IfNone, bytes_eq};
ghost use Rattle.lrat_lines.specs.Tokens.{is_gap, before_gap, behind_gaps, is_filled, tokens};
ghost use Rattle.cnf_core.specs.Spelling.{number_of_digits};
ghost use Rattle.lrat_lines.specs.Grammar.{id_item, literal_item};
ghost use Rattle.lrat_lines.specs.Steps.Reading.{fitting, id_fitted, negative_fitted, literal_fitted, place_item, begins_with};
ghost use Rattle.lrat_lines.specs.Steps.Gaps.{BeginsPlain};

use crate::LineEnd;
use cnf_core::{Lit, MAX_VARS};
use std::marker::Model;

/// Whether the byte is in no token.
fn is_gap(byte: u8) -> bool
    ensures { result ≡ is_gap byte }
{
    matches!(byte, b' ' | b'\t' | b'\r' | b'\n')
}

/// The bytes from the first on that is in a token.
fn skip_gaps(bytes: &[u8]) -> &[u8]
    ensures same { tokens result.now ≡ tokens bytes.now }
    ensures plain { BeginsPlain result.now }
{
    for (i, byte) in bytes.iter().enumerate() {
        if !is_gap(*byte) {
            return &bytes[i..];
        }
    }
    &[]
}

/// How many bytes are before the first gap.
fn token_len(bytes: &[u8]) -> usize
    ensures within { result ≤ length bytes.now }
    ensures token { before_gap bytes.now ≡ take result bytes.now }
    ensures rest { filter is_filled (behind_gaps bytes.now) ≡ tokens (drop result bytes.now) }
{
    for (i, byte) in bytes.iter().enumerate() {
        if is_gap(*byte) {
            return i;
        }
    }
    bytes.len()
}

/// The first token, and the bytes behind it.
fn first_token(bytes: &[u8]) -> Option<(&[u8], &[u8])>
    ensures some { IfSome result (λ p. tokens bytes.now ≡ p.0.now ∷ tokens p.1.now) }
    ensures none { IfNone result (tokens bytes.now ≡ []) }
{
    let rest = skip_gaps(bytes);
    if rest.is_empty() {
        return None;
    }
    Some(rest.split_at(token_len(rest)))
}

/// The tokens that are left of a line.
#[derive(Drop)]
pub struct Tokens<'a> {
    rest: &'a [u8],
}

impl<'a> Model for Tokens<'a> {
    ghost use Rattle.std.specs.Prelude.{ℕ, List};
    ghost use Rattle.lrat_lines.specs.Tokens.{tokens};

    ghost Value = { List (List ℕ) };

    ghost view = { λ t. tokens t.rest.now };
}

impl<'a> Tokens<'a> {
    /// The tokens of a line.
    pub fn new(line: &'a [u8]) -> Self
        ensures { result ≡ tokens line.now }
    {
        Tokens { rest: line }
    }

    /// Takes the next token.
    pub fn next(&mut self) -> Option<&'a [u8]>
        ensures some { IfSome result (λ t. self.old ≡ t.now ∷ self.new) }
        ensures none { IfNone result (self.old ≡ []) }
        ensures over { IfNone result (self.new ≡ []) }
    {
        let (token, rest) = first_token(self.rest)?;
        self.rest = rest;
        Some(token)
    }

    /// Takes the next token, if it is this word.
    pub fn take_word(&mut self, word: &[u8]) -> bool
        ensures word { result ≡ begins_with word.now self.old }
        ensures rest { self.new ≡ (if result then drop 1 self.old else self.old) }
    {
        let Some((token, rest)) = first_token(self.rest) else {
            return false;
        };
        if token != word {
            return false;
        }
        self.rest = rest;
        true
    }
}

/// A number that digits write, if it has 64 bits.
#[derive(Clone, Copy)]
pub enum Number {
    Fits(u64),
    TooLarge,
}

/// The number with one digit more.
fn with_digit(number: Number, digit: u8) -> Number
    requires { digit < 10 }
    ensures { (n : ℕ) → number ≡ fitting n → result ≡ fitting (n * 10 + digit) }
{
    let Number::Fits(n) = number else {
        return Number::TooLarge;
    };
    let Some(tens) = n.checked_mul(10) else {
        return Number::TooLarge;
    };
    match tens.checked_add(u64::from(digit)) {
        Some(sum) => Number::Fits(sum),
        None => Number::TooLarge,
    }
}

/// The number that one or more digits write.
pub fn decimal(bytes: &[u8]) -> Option<Number>
    ensures { result ≡ option_map fitting (number_of_digits bytes.now) }
{
    if bytes.is_empty() {
        return None;
    }
    let mut number = Number::Fits(0);
    for byte in bytes {
        if !byte.is_ascii_digit() {
            return None;
        }
        number = with_digit(number, *byte - b'0');
    }
    Some(number)
}

fn id_from(number: Option<Number>) -> Result<Option<u64>, LineEnd>
    ensures { result ≡ id_fitted number }
{
    match number {
        Some(Number::Fits(0)) => Ok(None),
        Some(Number::Fits(id)) => Ok(Some(id)),
        Some(Number::TooLarge) | None => Err(LineEnd::BadToken),
    }
}

fn negative_from(number: Option<Number>) -> LineEnd
    ensures { Err result ≡ negative_fitted number }
{
    match number {
        Some(Number::Fits(0)) | None => LineEnd::BadToken,
        Some(Number::Fits(_) | Number::TooLarge) => LineEnd::NegativeHint,
    }
}

fn literal_from(positive: bool, number: Option<Number>) -> Result<Option<Lit>, LineEnd>
    ensures { result ≡ literal_fitted positive number }
{
    let Some(Number::Fits(var)) = number else {
        return Err(LineEnd::BadToken);
    };
    if var == 0 {
        return if positive {
            Ok(None)
        } else {
            Err(LineEnd::BadToken)
        };
    }
    if var > u64::from(MAX_VARS) {
        return Err(LineEnd::BadToken);
    }
    Ok(Some(Lit::new(var as u32, positive)))
}

/// Which list of ids a token stands in.
#[derive(Clone, Copy)]
pub enum IdPlace {
    Deleted,
    Hint,
}

/// What a token is in a list of ids: an id, or the end (`None`).
pub fn id_item(token: &[u8]) -> Result<Option<u64>, LineEnd>
    ensures { result ≡ id_item token.now }
{
    id_from(decimal(token))
}

/// The same in one of the two lists.
pub fn place_item(place: IdPlace, token: &[u8]) -> Result<Option<u64>, LineEnd>
    ensures { result ≡ place_item place token.now }
{
    match (place, token) {
        (IdPlace::Hint, [b'-', digits @ ..]) => Err(negative_from(decimal(digits))),
        _ => id_item(token),
    }
}

/// What a token is in a list of literals: a literal, or the end (`None`).
pub fn literal_item(token: &[u8]) -> Result<Option<Lit>, LineEnd>
    ensures { result ≡ literal_item token.now }
{
    match token {
        [b'-', digits @ ..] => literal_from(false, decimal(digits)),
        _ => literal_from(true, decimal(token)),
    }
}
