// A range narrowed to two pairs of bounds, one after the other and at once.
ghost use Rattle.std.specs.Prelude.{◌≡◌, min, max};
ghost use Rattle.range.specs.Range.{within_of};

use range::AmbientRange;

#[derive(Clone, Copy)]
pub struct Pair {
    pub low: u8,
    pub high: u8,
}

pub fn twice(range: AmbientRange, by: Pair, then: Pair) -> Option<AmbientRange>
    ensures { result ≡ within_of range (max by.low then.low) (min by.high then.high) }
{
    range.within(by.low, by.high)?.within(then.low, then.high)
}

pub fn once(range: AmbientRange, by: Pair, then: Pair) -> Option<AmbientRange>
    ensures { result ≡ within_of range (max by.low then.low) (min by.high then.high) }
{
    range.within(by.low.max(then.low), by.high.min(then.high))
}
