// Blocks of bytes, for loops that go through a block at a time.
ghost use Rattle.std.specs.Prelude.{◌≡◌, ◌+◌, min};

// Where the block of at most `most` bytes from `from` on ends, among so many bytes.
pub fn block_end(from: usize, len: usize, most: usize) -> usize
    ensures { result ≡ min len (from + most) }
{
    from.saturating_add(most).min(len)
}
