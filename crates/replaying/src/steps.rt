// The step of a record, and whether what it left is the record's.
ghost use Rattle.std.specs.Prelude.{◌≡◌, not, ◌≢◌};
ghost use Rattle.slots.specs.Numbers.{number_of};
ghost use Rattle.recording.specs.Recording.{literal_in, top_in, same};
ghost use Rattle.replaying.specs.Replay.{top_of, top_differs};
ghost use Rattle.replaying.specs.ReplayLaws.{head_differs, first_field};
ghost use Rattle.replaying.specs.HeldLaws.{held_by, Holds};

use crate::answer::Field;
use edition::{Edition, Shipped};
use slots::Report;

fn has_head(bytes: &[u8], report: Report, depth: usize) -> bool
    ensures { not result ≡ head_differs bytes.now (number_of report) depth }
{
    if report.number() != recording::report_in(bytes) {
        return false;
    }
    depth == recording::depth_in(bytes)
}

// A stack without a top reads as zeros, which is what its record has. Four bytes are compared as they lie, so that nothing is swapped.
fn has_top(stack: &[u8], depth: usize, bytes: &[u8]) -> bool
    ensures { result ≡ same (top_of stack.now depth) (top_in bytes.now) }
{
    let five = recording::top_in(bytes);
    if five.len() != 5 {
        return false;
    }
    if places::top_b1(stack, depth) != places::top_b1(five, 1) {
        return false;
    }
    places::top_four(stack, depth) == places::top_four(five, 1)
}

// Not asked of a push.
pub fn top_differs(stack: &[u8], depth: usize, bytes: &[u8]) -> bool
    ensures { result ≡ top_differs bytes.now stack.now depth }
{
    if recording::literal_in(bytes) == 0 {
        return false;
    }
    !has_top(stack, depth, bytes)
}

// What a step left, held to its record: the step's report where the record differs.
fn by_head(bytes: &[u8], report: Report, depth: usize) -> Result<(), Report>
    ensures { result ≡ held_by (head_differs bytes.now (number_of report) depth) report }
{
    if has_head(bytes, report, depth) {
        return Ok(());
    }
    Err(report)
}

// Of a record that has a refusal. It goes by another table, so that the question stands between the one for a push and the table below: the compiler would else make an
// entry of the table of a push, which half of all records are.
fn refused(stack: &mut [u8], depth: &mut usize, bytes: &[u8], literal: u8) -> Result<(), Report>
    requires { (literal ≡ literal_in bytes.now) × (literal ≢ 0) }
    ensures { Holds stack.old depth.old bytes.now result depth.new stack.new }
{
    let report = operation::operate_in_place_in(Edition::Shipped, stack, depth, literal);
    if has_head(bytes, report, *depth) {
        if has_top(stack, *depth, bytes) {
            return Ok(());
        }
        return Err(report);
    }
    Err(report)
}

// A push for literal 0, and else the literal; and whether the record agrees.
pub(crate) fn step(stack: &mut [u8], depth: &mut usize, bytes: &[u8]) -> Result<(), Report>
    ensures { Holds stack.old depth.old bytes.now result depth.new stack.new }
{
    let literal = recording::literal_in(bytes);
    if literal == 0 {
        let report = moving::push_in_place::<true>(stack, depth, recording::top_in(bytes));
        if !report.is_done() {
            return by_head(bytes, report, *depth);
        }
        // The same, of a report that the compiler knows to be 0.
        return by_head(bytes, report, *depth);
    }
    if recording::report_in(bytes) != 0 {
        return refused(stack, depth, bytes, literal);
    }
    let report = operation::operate_as::<Shipped, true>(stack, depth, literal);
    if !report.is_done() {
        return Err(report);
    }
    if *depth != recording::depth_in(bytes) {
        return Err(Report::Done);
    }
    if has_top(stack, *depth, bytes) {
        return Ok(());
    }
    Err(Report::Done)
}

// Which field it is, of a record that does not agree. It asks anew: nearly every record agrees, and the step is then shorter.
pub(crate) fn first_difference(bytes: &[u8], report: Report, depth: usize) -> Field
    ensures { result ≡ first_field bytes.now (number_of report) depth }
{
    if report.number() != recording::report_in(bytes) {
        return Field::Report;
    }
    if depth != recording::depth_in(bytes) {
        return Field::Depth;
    }
    Field::Top
}
