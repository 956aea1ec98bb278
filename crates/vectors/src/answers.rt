// What can be seen of a case's answer, as text.
use calculator::{Cell, Outcome, RunOutcome};
use text::Page;

// All but the stack.
#[derive(Clone, Copy)]
pub(crate) struct Answer {
    // Of a replay, the number of the field that differs.
    pub(crate) field: Option<u8>,
    // Any byte: a case may give its report itself.
    pub(crate) report: u8,
    pub(crate) position: usize,
    pub(crate) depth: usize,
}

impl From<Outcome> for Answer {
    fn from(done: Outcome) -> Answer {
        Answer {
            field: None,
            report: done.report.number(),
            position: 0,
            depth: done.depth,
        }
    }
}

impl From<RunOutcome> for Answer {
    fn from(done: RunOutcome) -> Answer {
        Answer {
            field: None,
            report: done.report.number(),
            position: done.position,
            depth: done.depth,
        }
    }
}

// A number in decimal, and the byte that ends it.
fn put_number(page: &mut Page, n: u64, end: u8) {
    page.put_decimal(n);
    page.put(end);
}

// The bytes up to the last that is not zero.
fn without_zeros(bytes: &[u8]) -> &[u8] {
    match bytes.iter().rposition(|b| *b != 0) {
        Some(last) => &bytes[..last + 1],
        None => &[],
    }
}

fn put_bytes(page: &mut Page, bytes: &[u8]) {
    put_number(page, bytes.len() as u64, b':');
    page.put_hexes(without_zeros(bytes));
    page.put(b' ');
}

// A letter and a number.
fn put_cell(page: &mut Page, cell: Cell) {
    let (letter, n) = match cell {
        Cell::Refused(report) => (b'R', report as u64),
        Cell::Blank => (b'B', 0),
        Cell::Odd => (b'O', 0),
        // A cell's value is never a NaN. The test says so here.
        Cell::Value(x) => (b'V', if x.is_nan() { 0 } else { x.to_bits() }),
    };
    page.put(letter);
    put_number(page, n, b'\n');
}

impl Answer {
    // The field that differs comes before the rest.
    pub(crate) fn put(self, page: &mut Page, stack: &[u8]) {
        if let Some(field) = self.field {
            put_number(page, field as u64, b' ');
        }
        put_number(page, self.report as u64, b' ');
        put_number(page, self.position as u64, b' ');
        put_number(page, self.depth as u64, b' ');
        put_bytes(page, stack);
        put_bytes(page, calculator::view(stack, self.depth));
        put_cell(page, calculator::cell(self.report, stack, self.depth));
    }
}
