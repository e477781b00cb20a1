// One reading of many payloads, and the sum of its answers.
use crate::calls::reading;
use lists::Table;
use replay::{Text, mix_bytes};

// A reading by its letter, with room for records and for an answer.
#[derive(Drop)]
pub struct Reader<'a> {
    op: u8,
    records: &'a mut [u8],
    text: Text<'a>,
}

impl<'a> Reader<'a> {
    pub fn new(op: u8, records: &'a mut [u8], room: &'a mut [u8]) -> Self {
        Reader {
            op,
            records,
            text: Text::new(room),
        }
    }

    // The answer for a payload.
    pub fn answer(&mut self, payload: &[u8]) -> &[u8] {
        self.text.clear();
        reading(self.op, Table::One, payload, self.records, &mut self.text);
        self.text.written()
    }
}

// The sum of the answers so far.
#[derive(Drop)]
pub struct Sum<'a> {
    reader: Reader<'a>,
    total: u64,
}

impl<'a> Sum<'a> {
    pub fn of(reader: Reader<'a>) -> Self {
        Sum { reader, total: 0 }
    }

    // The sum with the answer to one more reading.
    pub fn add(&mut self, payload: &[u8]) {
        self.total = mix_bytes(self.total, self.reader.answer(payload));
    }

    pub fn total(&self) -> u64 {
        self.total
    }
}
