//! Where a variable's bits stand in the words of groups.
ghost use Rattle.std.specs.Prelude.{◌≡◌, ℕ, ◌+◌, ◌-◌, ◌/◌, ◌%◌, ◌^◌, ◌<◌, nat_eq};
ghost use Rattle.std.specs.Int.{bit_at};
ghost use Rattle.core_chunks.specs.Chunks.{open_mask};

/// The group of a variable.
#[inline(always)]
pub fn group_of(var: u32) -> u32
    requires { 0 < var }
    ensures { result ≡ (var - 1) / 32 }
{
    (var - 1) / 32
}

/// The mask of a variable alone in its group.
#[inline(always)]
pub fn bit_of(var: u32) -> u32
    requires { 0 < var }
    ensures { result ≡ 2 ^ ((var - 1) % 32) }
{
    1 << ((var - 1) % 32)
}

/// Whether the bit is on.
#[inline(always)]
pub fn has_bit(mask: u32, bit: u32) -> bool
    requires { bit < 32 }
    ensures { result ≡ nat_eq (bit_at mask bit) 1 }
{
    (mask >> bit) & 1 == 1
}

/// The fixed bits of a word that aren't known.
#[inline(always)]
pub fn fixed_unknown(word: u64, known: u32) -> u32
    ensures { (i : ℕ) → i < 32 → bit_at result i ≡ bit_at word (32 + i) - bit_at known i }
{
    (word >> 32) as u32 & !known
}

/// The open bits of a word: alive and not fixed.
#[inline(always)]
pub fn open_bits(word: u64) -> u32
    ensures { result ≡ open_mask word }
{
    (word & !(word >> 32) & 0xFFFF_FFFF) as u32
}
