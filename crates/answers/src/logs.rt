// Of a log, its lines and its bill.
ghost use Rattle.std.specs.Prelude.{◌≡◌};
ghost use Rattle.line_reader.specs.LineReader.{read_told};
ghost use Rattle.telling.specs.Told.{status_of, numbers_of, told};
ghost use Rattle.numbers.specs.Numbers.{line_numbers, line_read_numbers, count_numbers, bill_numbers};

use crate::answers::Told;
use base::Refusal;
use billing::Bill;
use counting::LineCounts;
use line_reader::LineRead;
use telling::{refuse, tell, tell_two};

// The length of the line that was written, if one was.
impl Told for Option<usize> {
    ghost numbers = { line_numbers };

    fn tell(self, values: &mut [u64]) {
        match self {
            Some(n) => tell(&[n as u64], values),
            None => tell(&[0], values),
        }
    }
}

impl Told for LineCounts {
    ghost numbers = { count_numbers };

    fn tell(self, values: &mut [u64]) {
        let numbers = [self.full, self.masked, self.header, self.unread];
        tell(&numbers, values);
    }
}

impl Told for Bill {
    ghost numbers = { bill_numbers };

    fn tell(self, values: &mut [u64]) {
        tell_two(self.net, self.total, values);
    }
}

pub fn line_read_told(read: Result<LineRead, Refusal>, values: &mut [u64]) -> u8
    ensures value { result ≡ status_of (read_told read) }
    ensures values_after { values.new ≡ told (numbers_of line_read_numbers (read_told read)) values.old }
{
    match read {
        Err(r) => refuse(r, values),
        Ok(_) => {
            tell(&numbers::line(read), values);
            0
        }
    }
}
