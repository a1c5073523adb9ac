ghost use Rattle.std.specs.Prelude.{◌≡◌, ◌+◌, ◌*◌, ◌^◌, ◌<◌, ◌++◌, ◌∷◌, [], length, replicate, IfOk, OnOk};
ghost use Rattle.board_core.specs.Words.{var_if, vars_of, met_words};
ghost use Rattle.board_core.specs.Boards.{without_number};

use cnf_core::NoMemory;
use std::alloc::Global;

/// Adds a variable where its bit is 1.
fn push_if(vars: &mut Vec<u32>, bit: u32, var: u32) -> Result<(), NoMemory>
    requires { bit < 2 }
    ensures { OnOk result (vars.new.items ≡ vars.old.items ++ var_if bit var) }
{
    if bit == 1 {
        vars.push(var)?;
    }
    Ok(())
}

/// The variables of a group's mask, in rising order.
pub(crate) fn vars_of(alloc: Global, group: u32, mask: u32) -> Result<Vec<u32>, NoMemory>
    requires { group < 2 ^ 20 }
    ensures { IfOk result (λ vars. vars.items ≡ vars_of group mask) }
{
    let mut vars = Vec::new(alloc);
    for bit in 0..32 {
        push_if(&mut vars, (mask >> bit) & 1, 32 * group + bit + 1)?;
    }
    Ok(vars)
}

/// The words with the bits alive in both, and those fixed in either.
pub(crate) fn met_words(alloc: Global, left: &[u64], right: &[u64]) -> Result<Vec<u64>, NoMemory>
    requires { length left.now ≡ length right.now }
    ensures { IfOk result (λ words. words.items ≡ met_words left.now right.now) }
{
    let mut words = Vec::with_capacity(alloc, left.len())?;
    for place in 0..left.len() {
        let (a, b) = (left[place], right[place]);
        words.push((a & b & 0xffff_ffff) | ((a | b) & 0xffff_ffff_0000_0000))?;
    }
    Ok(words)
}

/// The numbers but this one.
pub(crate) fn without_number(
    alloc: Global,
    number: u32,
    numbers: &[u32],
) -> Result<Vec<u32>, NoMemory>
    ensures { IfOk result (λ rest. rest.items ≡ without_number number numbers.now) }
{
    let mut rest = Vec::new(alloc);
    for other in numbers {
        if *other != number {
            rest.push(*other)?;
        }
    }
    Ok(rest)
}

/// The items of the first list, and then those of the second.
pub(crate) fn chained<T: Copy>(alloc: Global, first: &[T], second: &[T]) -> Result<Vec<T>, NoMemory>
    ensures { IfOk result (λ items. items.items ≡ first.now ++ second.now) }
{
    let mut items = Vec::from_slice(alloc, first)?;
    items.extend_from_slice(second)?;
    Ok(items)
}

/// So many zeros.
pub(crate) fn zeros(alloc: Global, count: usize) -> Result<Vec<u64>, NoMemory>
    ensures { IfOk result (λ counts. counts.items ≡ replicate count 0) }
{
    Ok(vec![in alloc; 0u64; count]?)
}
