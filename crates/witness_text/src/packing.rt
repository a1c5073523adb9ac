//! Digits packed into words, one bit a variable.
ghost use Rattle.std.specs.Prelude.{◌≡◌, ◌*◌, ◌<◌, ◌≤◌, ◌^◌, false, length, slice_index_or, OnOk, OnErr};
ghost use Rattle.std.specs.List.{list_all};
ghost use Rattle.model_store.specs.Steps.Packed.{words_for, HasValues, AppendsValues};
ghost use Rattle.witness_text.specs.Reading.{is_bit, values_of};

use cnf_core::NoMemory;

/// How many values a word has.
pub const WORD: usize = 64;

/// How many words so many values take.
pub fn words_for(vars: usize) -> usize
    requires { vars ≤ 2 ^ 20 }
    ensures { result ≡ words_for vars }
{
    vars.div_ceil(WORD)
}

/// Whether each byte is the digit of a truth value.
pub fn are_bits(bytes: &[u8]) -> bool
    ensures { result ≡ list_all is_bit bytes.now }
{
    bytes.iter().all(|byte| is_bit(*byte))
}

/// Whether the byte is the digit of a truth value.
fn is_bit(byte: u8) -> bool
    ensures { result ≡ is_bit byte }
{
    byte == b'0' || byte == b'1'
}

/// Adds the words of the digits' values at the end of the block. Without memory the block stays as it was.
pub fn push_digits(words: &mut Vec<u64>, digits: &[u8]) -> Result<(), NoMemory>
    requires { length digits.now ≤ 2 ^ 20 }
    ensures ok { OnOk result (AppendsValues words.old.items words.new.items (values_of digits.now)) }
    ensures err { OnErr result (words.new.items ≡ words.old.items) }
{
    let start = words.len();
    let count = words_for(digits.len());
    words.resize(start + count, 0)?;
    for j in 0..count {
        words[start + j] = packed_word(digits, j);
    }
    Ok(())
}

/// The word of the values from digit 64 j on.
fn packed_word(digits: &[u8], j: usize) -> u64
    requires { 64 * j < length digits.now }
    ensures { HasValues (values_of digits.now) j result }
{
    let first = j * WORD;
    let count = (digits.len() - first).min(WORD);
    let mut word = 0;
    for k in 0..count {
        if is_one(digits, first + k) {
            word |= 1 << k;
        }
    }
    word
}

/// Whether the digit at a place is 1.
fn is_one(digits: &[u8], place: usize) -> bool
    requires { place < length digits.now }
    ensures { result ≡ slice_index_or (values_of digits.now) place false }
{
    digits[place] == b'1'
}
