// The first span among the held bytes.
ghost use Rattle.std.specs.Prelude.{◌≡◌};
ghost use Rattle.finding.specs.Finding.{find_call, look_of};
ghost use Rattle.base.specs.Refusal.{outcome_of};

use frame::Refusal;
use held::{Sight, Spot, seek};
use scanner::{Scanner, check};

#[tactic(auto, using(scanner::proofs::LawsScanner::held_known, crate::proofs::LawsFinding::found))]
pub fn find(scanner: Scanner, store: &[u8]) -> Result<Option<Spot>, Refusal>
    ensures { outcome_of result ≡ find_call scanner store.now }
{
    check(scanner, store)?;
    Ok(match seek(&store[..scanner.count]) {
        Sight::NoStart | Sight::NoEnd(_) => None,
        Sight::Both { at, len } => Some(Spot { at, len }),
    })
}

#[tactic(auto, using(crate::proofs::LawsFinding::looking))]
pub fn look(scanner: Scanner, store: &[u8]) -> &[u8]
    ensures { result.now ≡ look_of scanner store.now }
{
    match find(scanner, store) {
        Ok(Some(Spot { at, len })) => &store[at..at + len],
        Ok(None) | Err(_) => &store[..0],
    }
}
