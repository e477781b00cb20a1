// Which decoder reads a payload, by the frame's type and the payload's command.
ghost use Rattle.std.specs.Prelude.{◌≡◌, get_or};
ghost use Rattle.plan.specs.Plan.{plan_fine, entry_of, house_plan};

const PLAN_LEN: usize = 512;

const TABLE_LEN: usize = 256;

const LAST_ENTRY: u8 = 8;

#[tactic(auto, unfolding(crate::specs::Plan::house_plan))]
pub fn house_plan() -> [u8; 512]
    ensures { result ≡ house_plan }
{
    let mut plan = [0u8; 512];
    plan[0x07] = 6;
    plan[0x23] = 1;
    plan[0x25] = 1;
    plan[0x57] = 4;
    plan[0x59] = 4;
    plan[0x61] = 3;
    plan[0x67] = 2;
    plan[0x69] = 2;
    plan[0xD1] = 8;
    plan[0xD7] = 7;
    plan[0xD9] = 7;
    plan[TABLE_LEN + 0x07] = 6;
    plan[TABLE_LEN + 0x37] = 5;
    plan[TABLE_LEN + 0x39] = 5;
    plan
}

// Whether a plan has its length and no entry that names no decoder.
#[tactic(auto, using(crate::proofs::LawsPlan::fine_step, crate::proofs::LawsPlan::fine_end), unfolding(crate::specs::Plan::plan_fine))]
pub fn plan_fine(plan: &[u8]) -> bool
    ensures { result ≡ plan_fine plan.now }
{
    if plan.len() != PLAN_LEN {
        return false;
    }
    // never left early, so that it vectorises
    let mut fine = true;
    for &e in plan {
        fine &= e <= LAST_ENTRY;
    }
    fine
}

// The entry at a place; 0, "none", behind the end.
fn entry_at(plan: &[u8], at: usize) -> u8
    ensures { result ≡ get_or plan.now at 0 }
{
    plan.get(at).copied().unwrap_or(0)
}

#[tactic(auto, unfolding(crate::specs::Plan::entry_of))]
pub fn entry(plan: &[u8], kind: u8, command: u8) -> u8
    ensures { result ≡ entry_of plan.now kind command }
{
    match kind {
        0x0C => entry_at(plan, command as usize),
        0x0E => entry_at(plan, TABLE_LEN + command as usize),
        _ => 0,
    }
}
