// The cell of the top number.
ghost use Rattle.std.specs.Prelude.{◌≡◌, cond};
ghost use Rattle.slots.specs.Reports.{over_limits};
ghost use Rattle.display.specs.declared.shown.Cell.TheVariants.{Refused, Blank};
ghost use Rattle.display.specs.Cell.{cell_of, number_shown};

use crate::shown::Cell;
use number::{Form, Number};

fn show(x: Number) -> Cell
    ensures { result ≡ number_shown x }
{
    let form = number::form_of(x);
    match form {
        Form::Malformed => Cell::Refused(3),
        Form::Odd => Cell::Odd,
        Form::Full => Cell::Value(value::double(x)),
        Form::Short => Cell::Value(value::double(x)),
    }
}

// The cell of a stack that has no top.
fn nothing(stack: &[u8], depth: usize) -> Cell
    ensures { result ≡ cond (over_limits stack.now depth) (Refused 1) Blank }
{
    if slots::over_limits(stack, depth) {
        return Cell::Refused(1);
    }
    Cell::Blank
}

pub fn cell(report: u8, stack: &[u8], depth: usize) -> Cell
    ensures { result ≡ cell_of report stack.now depth }
{
    if report != 0 {
        return Cell::Refused(report);
    }
    if slots::lacks(stack, depth, 1) {
        return nothing(stack, depth);
    }
    show(Number {
        b1: places::b1_at(stack, depth, 0),
        word: places::word_at(stack, depth, 0),
    })
}
