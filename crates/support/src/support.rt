// The functions that a headset says it supports.
ghost use Rattle.std.specs.Prelude.{◌≡◌, ◌+◌, ◌*◌, ◌<◌, length};
ghost use Rattle.support.specs.Support.{check_of, support_call, function_at};
ghost use Rattle.base.specs.Refusal.{outcome_of};

use frame::Refusal;

#[derive(Clone, Copy)]
pub enum Table {
    One,
    Two,
}

#[repr(C)]
#[derive(Clone, Copy)]
pub struct SupportFunction {
    pub code: u8,
    pub priority: u8,
}

#[derive(Clone, Copy)]
pub struct SupportList {
    pub table: Table,
    pub count: usize,
}

// The number of functions in the list: the check by itself, which needs no records.
pub fn check_support_functions(payload: &[u8]) -> Result<usize, Refusal>
    ensures { outcome_of result ≡ check_of payload.now }
{
    if payload.len() < 2 || payload[1] != 0x00 {
        return Err(Refusal::WrongKind);
    }
    if payload.len() < 3 {
        return Err(Refusal::WrongLength);
    }
    let count = payload[2] as usize;
    if payload.len() - 3 != 2 * count {
        return Err(Refusal::WrongLength);
    }
    Ok(count)
}

// The function `i` of the list.
fn function_at(payload: &[u8], i: usize) -> SupportFunction
    requires { 3 + 2 * i + 1 < length payload.now }
    ensures { result ≡ function_at payload.now i }
{
    let k = 3 + 2 * i;
    SupportFunction {
        code: payload[k],
        priority: payload[k + 1],
    }
}

// The list goes to the first places of `records`.
#[tactic(auto, using(crate::proofs::LawsSupport::was_list, crate::proofs::LawsSupport::with_none), unfolding(crate::specs::Support::support_call))]
pub fn decode_support_functions(
    table: Table,
    payload: &[u8],
    records: &mut [SupportFunction],
) -> Result<SupportList, Refusal>
    ensures result_value { outcome_of result ≡ (support_call table payload.now records.old).answer }
    ensures records_after { records.new ≡ (support_call table payload.now records.old).records }
{
    let count = check_support_functions(payload)?;
    if records.len() < count {
        return Err(Refusal::TooFewRecords);
    }
    for i in 0..count {
        records[i] = function_at(payload, i);
    }
    Ok(SupportList { table, count })
}
