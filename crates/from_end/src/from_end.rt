// The 8-bit wrapping sum, from the last byte to the first.
ghost use Rattle.std.specs.Prelude.{◌≡◌, ◌<◌, ◌≤◌};
ghost use Rattle.from_end.specs.FromEnd.{back_onto};

fn back(sum: u8, bytes: &[u8]) -> u8
    ensures { result ≡ back_onto sum bytes.now }
{
    bytes.iter().rfold(sum, |sum, &b| sum.wrapping_add(b))
}

// Adds the blocks of N bytes that end where the bytes end; the sum, and the bytes in front of them. Blocks of a known length compile to wide additions.
fn back_blocks<const N: usize>(sum: u8, bytes: &[u8]) -> (u8, &[u8])
    requires some { 0 < N }
    requires few { N ≤ 32 }
    ensures { back_onto result.0 result.1.now ≡ back_onto sum bytes.now }
{
    let (front, blocks) = bytes.as_rchunks::<N>();
    let total = blocks.iter().rfold(
        sum,
        |total: u8, block: &[u8; N]| -> u8
            ensures { result ≡ back_onto total block.now }
        { back(total, block) },
    );
    (total, front)
}

// Adds the bytes onto `sum`: 0, or the sum of what stands behind them.
pub fn checksum_from_end(sum: u8, bytes: &[u8]) -> u8
    ensures { result ≡ back_onto sum bytes.now }
{
    let (total, front) = back_blocks::<32>(sum, bytes);
    let (total, front) = back_blocks::<8>(total, front);
    back(total, front)
}
