ghost use Rattle.std.specs.Prelude.{◌≡◌, ◌*◌, ◌<◌, ◌≤◌, ◌^◌, length, vec_len, OnOk, OnErr};
ghost use Rattle.model_store.specs.Steps.Packed.{words_for, HasValues, AppendsValues};

use cnf_core::{NoMemory, Values};

/// How many values a word has.
pub const WORD: usize = 64;

/// How many words so many values take.
pub fn words_for(vars: u32) -> usize
    ensures { result ≡ words_for vars }
{
    (vars as usize).div_ceil(WORD)
}

/// Adds the words of the values at the end of the block. Without memory the block stays as it was.
pub fn push_packed(words: &mut Vec<u64>, values: &Values) -> Result<(), NoMemory>
    ensures ok { OnOk result (AppendsValues words.old.items words.new.items values.now) }
    ensures err { OnErr result (words.new.items ≡ words.old.items) }
{
    let start = words.len();
    let count = words_for(values.len());
    words.resize(start + count, 0)?;
    for j in 0..count {
        words[start + j] = packed_word(values, j);
    }
    Ok(())
}

/// The word of the values from variable 64 j + 1 on.
fn packed_word(values: &Values, j: usize) -> u64
    requires { 64 * j < length values.now }
    ensures { HasValues values.now j result }
{
    let len = values.len() as usize;
    let first = j * WORD;
    let count = (len - first).min(WORD);
    let mut word = 0;
    for k in 0..count {
        if values.get((first + k + 1) as u32) {
            word |= 1 << k;
        }
    }
    word
}
