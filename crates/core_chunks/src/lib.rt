//! Which candidates a query asks about: blocks of open variables, and the part of a core that is still open.
#![tactic(auto)]

ghost use Rattle.std.specs.Prelude.{◌≡◌, ◌+◌, ◌-◌, ◌*◌, ◌^◌, ◌<◌, ◌≤◌, ◌++◌, ◌∷◌, [], length, take, slice_index, IfOk, OnOk};
ghost use Rattle.std.specs.Vec.{vec_len};
ghost use Rattle.board_core.specs.Words.{var_if, vars_of};
ghost use Rattle.core_chunks.specs.Chunks.{open_mask, open_in_groups, block_of, is_open, chunk_of};

pub mod laws;
#[cfg(test)]
mod tests;

use cnf_core::{Lit, NoMemory};
use std::alloc::Global;

/// The open bits of a word: alive and not fixed.
#[inline(always)]
fn open_bits(word: u64) -> u64
    ensures { result ≡ open_mask word }
{
    word & !(word >> 32) & 0xffff_ffff
}

/// Adds a variable where its bit is 1 and there is room for one of so many.
fn push_if(block: &mut Vec<u32>, bit: u64, var: u32, size: usize) -> Result<(), NoMemory>
    requires room { vec_len block.old ≤ size }
    requires bit { bit < 2 }
    ensures items { OnOk result (block.new.items ≡ take size (block.old.items ++ var_if bit var)) }
    ensures room { OnOk result (vec_len block.new ≤ size) }
{
    if bit == 1 && block.len() < size {
        block.push(var)?;
    }
    Ok(())
}

/// Adds the variables of a group's open bits, as far as there is room.
fn push_group(block: &mut Vec<u32>, group: u32, bits: u64, size: usize) -> Result<(), NoMemory>
    requires room { vec_len block.old ≤ size }
    requires group { group < 2 ^ 15 }
    ensures items { OnOk result (block.new.items ≡ take size (block.old.items ++ vars_of group bits)) }
    ensures room { OnOk result (vec_len block.new ≤ size) }
{
    if bits == 0 {
        return Ok(());
    }
    for bit in 0..32 {
        push_if(block, (bits >> bit) & 1, 32 * group + bit + 1, size)?;
    }
    Ok(())
}

/// Adds the open variables of the groups from the first to before the end, as far as there is room.
fn push_groups(
    block: &mut Vec<u32>,
    seen: &[u64],
    first: u32,
    end: u32,
    size: usize,
) -> Result<(), NoMemory>
    requires room { vec_len block.old ≤ size }
    requires groups { (first ≤ end) × (end ≤ length seen.now) × (length seen.now ≤ 2 ^ 15) }
    ensures items { OnOk result (block.new.items ≡ take size (block.old.items ++ open_in_groups seen.now first (end - first))) }
    ensures room { OnOk result (vec_len block.new ≤ size) }
{
    for group in first..end {
        if block.len() == size {
            return Ok(());
        }
        push_group(block, group, open_bits(seen[group as usize]), size)?;
    }
    Ok(())
}

/// Room for so many variables is made at once.
const SHORT: usize = 256;

/// The first open variables of the words, at most `size` of them: in rising order within a group, with the groups taken
/// from `from` to the last and then from 0. There are at most 2^15 words.
pub fn block(alloc: Global, seen: &[u64], from: u32, size: u32) -> Result<Vec<u32>, NoMemory>
    requires seen { length seen.now ≤ 2 ^ 15 }
    requires from { from < length seen.now }
    ensures { IfOk result (λ block. block.items ≡ block_of seen.now from size) }
{
    let size = size as usize;
    let mut block = Vec::with_capacity(alloc, size.min(SHORT))?;
    push_groups(&mut block, seen, from, seen.len() as u32, size)?;
    push_groups(&mut block, seen, 0, from, size)?;
    Ok(block)
}

/// Whether the variable, from 1 on, is open in the words.
pub fn is_open(seen: &[u64], var: u32) -> bool
    requires { 0 < var }
    ensures { result ≡ is_open seen.now var }
{
    let place = var - 1;
    let group = (place / 32) as usize;
    group < seen.len() && (open_bits(seen[group]) >> (place % 32)) & 1 == 1
}

/// The literals of a core whose variables are open in the words, in its order.
pub fn chunk_of(alloc: Global, seen: &[u64], core: &[Lit]) -> Result<Vec<Lit>, NoMemory>
    ensures { IfOk result (λ chunk. chunk.items ≡ chunk_of seen.now core.now) }
{
    let mut chunk = Vec::new(alloc);
    for lit in core {
        if is_open(seen, lit.var()) {
            chunk.push(*lit)?;
        }
    }
    Ok(chunk)
}
