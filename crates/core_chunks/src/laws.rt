//! What holds of every block by the definitions alone. The function does nothing: its contract is the law.
ghost use Rattle.core_chunks.specs.Chunks.{BlocksAreOpen};

/// A block has open variables alone, each once, and as many as it may have, or all there are.
pub fn block_is_open()
    ensures { BlocksAreOpen }
{}
