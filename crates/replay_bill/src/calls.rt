// The calls, and their answers in words.
use base::Refusal;
use billing::{Bill, LineCounts, bill, bill_text, count_line, count_text, no_lines};
use decimal::read_decimal;
use replay::Text;

fn bill_of(text: &mut Text, bill: Bill) {
    text.word(b"bill");
    text.number(bill.net);
    text.number(bill.total);
}

fn lines_of(text: &mut Text, counts: LineCounts) {
    text.word(b"lines");
    text.number(counts.full);
    text.number(counts.masked);
    text.number(counts.header);
    text.number(counts.unread);
}

pub fn bill_counts(counts: LineCounts, tax: u64, text: &mut Text) {
    text.answer(bill(counts, tax), bill_of);
}

// The lines of a log, each up to its newline, and the bytes behind the last one.
fn line_by_line(log: &[u8]) -> Result<LineCounts, Refusal> {
    let mut counts = no_lines();
    for line in log.split_inclusive(|&b| b == b'\n') {
        counts = count_line(counts, line)?;
    }
    Ok(counts)
}

pub fn bill_lines(log: &[u8], tax: u64, text: &mut Text) {
    text.answer(bill_text(log, tax), bill_of);
    text.answer(count_text(log), lines_of);
    text.answer(line_by_line(log), lines_of);
}

pub fn one_line(counts: LineCounts, line: &[u8], text: &mut Text) {
    text.answer(count_line(counts, line), lines_of);
}

pub fn read_digits(digits: &[u8], text: &mut Text) {
    match read_decimal(digits) {
        Some(n) => {
            text.word(b"number");
            text.number(n);
        }
        None => text.word(b"none"),
    }
}
