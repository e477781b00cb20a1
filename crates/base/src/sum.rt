// The 8-bit wrapping sum over type, sequence, length and payload.
ghost use Rattle.std.specs.Prelude.{◌≡◌};
ghost use Rattle.base.specs.Sum.{checksum_of};

#[tactic(auto, using(crate::proofs::LawsSum::total_none, crate::proofs::LawsSum::total_more))]
pub fn checksum(bytes: &[u8]) -> u8
    ensures { result ≡ checksum_of bytes.now }
{
    let mut sum = 0u8;
    for &b in bytes {
        sum = sum.wrapping_add(b);
    }
    sum
}
