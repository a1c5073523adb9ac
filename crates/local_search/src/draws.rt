//! Places by words that were drawn.
ghost use Rattle.std.specs.Prelude.{◌<◌};

/// A place among so many, by a word: each place has as many words as any other, but for one (Lemire 2019). It takes no
/// division, which is most of what a draw would cost.
#[inline(always)]
pub(crate) fn below(word: u32, count: usize) -> usize
    requires { 0 < count }
    ensures { result < count }
{
    ((count as u64).saturating_mul(u64::from(word)) / (1 << 32)) as usize
}
