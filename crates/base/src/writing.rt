// What the calls share that write bytes to a lent output.
ghost use Rattle.std.specs.Prelude.{◌≡◌};
ghost use Rattle.base.specs.Writing.{zeroed_from, zeros};

// Every byte from `from` on becomes zero.
#[tactic(auto, unfolding(crate::specs::Writing::zeroed_from))]
pub fn wipe_from(out: &mut [u8], from: usize)
    ensures { out.new ≡ zeroed_from from out.old }
{
    if from < out.len() {
        out[from..].fill(0);
    }
}

// Every byte becomes zero.
pub fn wipe(out: &mut [u8])
    ensures { out.new ≡ zeros out.old }
{
    out.fill(0);
}
