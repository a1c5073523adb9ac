//! Texts in memory that feeds are read from.
ghost use Rattle.std.specs.Prelude.{◌≡◌, ◌≤◌, ◌<◌, ◌++◌, [], length, take, drop, min};

/// Copies the next bytes of a text into the front of `buf`, and moves the place behind them.
pub(crate) fn copy_front(text: &[u8], at: &mut usize, piece: usize, buf: &mut [u8]) -> usize
    requires piece { 1 ≤ piece }
    requires buf { 0 < length buf.old }
    ensures moved { result ≡ min (min piece (length buf.old)) (length (drop at.old text.now)) }
    ensures count { result ≤ length buf.old }
    ensures took { drop at.old text.now ≡ take result buf.new ++ drop at.new text.now }
    ensures rest { drop result buf.new ≡ drop result buf.old }
    ensures end { result ≡ 0 → drop at.old text.now ≡ [] }
{
    let start = (*at).min(text.len());
    let left = &text[start..];
    let moved = piece.min(buf.len()).min(left.len());
    buf[..moved].copy_from_slice(&left[..moved]);
    *at = start + moved;
    moved
}
