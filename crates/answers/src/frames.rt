// Of frames and the scanner.
ghost use Rattle.telling.specs.Told.{only};
ghost use Rattle.numbers.specs.Numbers.{header_numbers, spot_numbers, bit_numbers, sight_numbers};

use crate::answers::Told;
use framing::Header;
use held::{Sight, Spot};
use numbers::flag;
use telling::tell;

// The length of what was written, or how many there are.
impl Told for usize {
    ghost numbers = { only };

    fn tell(self, values: &mut [u64]) {
        tell(&[self as u64], values);
    }
}

// A frame's type, sequence and payload length.
impl Told for Header {
    ghost numbers = { header_numbers };

    fn tell(self, values: &mut [u64]) {
        let numbers = [
            self.data_type.to_wire() as u64,
            self.seq as u64,
            self.len as u64,
        ];
        tell(&numbers, values);
    }
}

impl Told for Option<Spot> {
    ghost numbers = { spot_numbers };

    fn tell(self, values: &mut [u64]) {
        match self {
            Some(Spot { at, len }) => tell(&[1, at as u64, len as u64], values),
            None => tell(&[0], values),
        }
    }
}

// Whether a span went, or whether a level is admitted.
impl Told for bool {
    ghost numbers = { bit_numbers };

    fn tell(self, values: &mut [u64]) {
        tell(&[flag(self)], values);
    }
}

impl Told for Sight {
    ghost numbers = { sight_numbers };

    fn tell(self, values: &mut [u64]) {
        match self {
            Sight::NoStart => tell(&[0], values),
            Sight::NoEnd(at) => tell(&[1, at as u64], values),
            Sight::Both { at, len } => tell(&[2, at as u64, len as u64], values),
        }
    }
}
