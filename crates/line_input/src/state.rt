// Where the reading of an input stands. Every place is tested where it is used, so that nothing here asks anything of its caller.
ghost use Rattle.std.specs.Prelude.{◌≡◌};
ghost use Rattle.line_input.specs.State.{nothing_read};

#[derive(Clone, Copy, Debug, PartialEq, Eq)]
pub struct Input {
    // where the line that has begun stands in the buffer
    pub at: usize,
    // up to where no newline was found
    pub seen: usize,
    // where the held bytes end
    pub end: usize,
    // the line's number, from 1 on
    pub number: u64,
    // it is too long, and skipped to its end
    pub skips: bool,
    // there is nothing more to read
    pub ended: bool,
    // it could not be read
    pub failed: bool,
}

pub fn begun() -> Input
    ensures { result ≡ nothing_read }
{
    Input {
        at: 0,
        seen: 0,
        end: 0,
        number: 1,
        skips: false,
        ended: false,
        failed: false,
    }
}
