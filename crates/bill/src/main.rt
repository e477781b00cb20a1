// Prints the bill of the log that comes on standard input, at the tax per thousand that is its argument: how many lines of each kind the log has, and net and
// total in cents.
#![tactic(auto)]

mod lines;
mod say;
mod tax;

use billing::{Bill, LineCounts, bill};
use decimal::ArgumentError;
use lines::count_all;
use say::{complain, tell};
use tax::tax_given;

fn tell_all(rt: HostRuntime, counts: LineCounts, net: u64, total: u64) -> bool {
    tell(rt, b"F ", counts.full)
        && tell(rt, b"S ", counts.masked)
        && tell(rt, b"H ", counts.header)
        && tell(rt, b"R ", counts.unread)
        && tell(rt, b"net ", net)
        && tell(rt, b"total ", total)
}

fn report(rt: HostRuntime, counts: LineCounts, tax: u64) {
    match bill(counts, tax) {
        Ok(Bill { net, total }) => {
            if !tell_all(rt, counts, net, total) {
                complain(rt, b"bill: cannot write to standard output\n");
            }
        }
        Err(_) => {
            if tax > 1000 {
                complain(rt, b"bill: refused 28, the tax is above 1000\n");
            } else {
                complain(rt, b"bill: refused 28, a line count is above 4294967295\n");
            }
        }
    }
}

// A refused line comes before a tax that is too great, and a tax that is no number before all.
fn bill_at(rt: HostRuntime, tax: u64) {
    let mut buf = [0u8; 147457];
    let run = count_all(rt, &mut buf);
    if run.whole {
        report(rt, run.counts, tax);
    }
}

fn main(rt: HostRuntime) {
    match tax_given(rt) {
        Ok(tax) => bill_at(rt, tax),
        Err(ArgumentError::Missing) => complain(
            rt,
            b"bill: refused 28, no tax is given; it is decimal digits, per thousand, from 0 to 1000\n",
        ),
        Err(ArgumentError::NotANumber) => complain(
            rt,
            b"bill: refused 28, the tax is no number; it is decimal digits, per thousand, from 0 to 1000\n",
        ),
        Err(ArgumentError::TooMany) => complain(
            rt,
            b"bill: takes one argument, the tax per thousand\n",
        ),
    }
}
