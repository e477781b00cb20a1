// The support list in records that are lent, as pairs of bytes.
use base::Refusal;
use lists::{SupportFunction, SupportList, Table};

// A record for each two of the bytes, which show the records before and after the call.
pub fn in_records(table: Table, payload: &[u8], pairs: &mut [u8]) -> Result<SupportList, Refusal> {
    let none = SupportFunction {
        code: 0,
        priority: 0,
    };
    let mut records = [none; 512];
    for (record, pair) in records.iter_mut().zip(pairs.chunks_exact(2)) {
        record.code = pair[0];
        record.priority = pair[1];
    }
    let lent = &mut records[..pairs.len().min(1024) / 2];
    let answer = lists::decode_support_functions(table, payload, lent);
    for (record, pair) in records.iter().zip(pairs.chunks_exact_mut(2)) {
        pair[0] = record.code;
        pair[1] = record.priority;
    }
    answer
}
