// The calculator for programs in other languages: include/trenailer.h declares these nine functions, and the crate trenailer_c exports
// them. A slice passes as a pointer and a length, and what a function answers beside its result goes out through a pointer.
// Reports, editions, fields and the cases of a cell pass as numbers, as C has them.
#![tactic(auto)]

ghost use Rattle.std.specs.Prelude.{◌≡◌};
ghost use Rattle.edition.specs.Edition.{unnamed};
ghost use Rattle.number.specs.LeadingZeros.{LeadingZeros};
ghost use Rattle.slots.specs.Push.{push_of};
ghost use Rattle.display.specs.Cell.{cell_of};
ghost use Rattle.literals.specs.Operate.{outcome, operate_of};
ghost use Rattle.calculator.specs.Run.{run_of};
ghost use Rattle.calculator.specs.Outcome.{run_outcome};
ghost use Rattle.replaying.specs.Replay.{replay_of};
ghost use Rattle.trenailer.specs.Told.{Part, told_of, replay_told};
ghost use Rattle.trenailer.specs.Numbered.{operate_numbered, run_numbered};

use calculator::{Cell, Edition};
use replaying::Verdict;

// The report of a number that no edition has.
const UNKNOWN_EDITION: u8 = 12;

pub fn trenailer_operate(stack: &mut [u8], depth: &mut usize, literal: u8) -> u8
    ensures { operate_of unnamed stack.old depth.old literal ≡ (outcome result depth.new, stack.new) }
{
    calculator::operate_in_place(stack, depth, literal).number()
}

pub fn trenailer_operate_in(edition: u8, stack: &mut [u8], depth: &mut usize, literal: u8) -> u8
    ensures { operate_numbered edition stack.old depth.old literal ≡ (outcome result depth.new, stack.new) }
{
    match Edition::try_from(edition) {
        Ok(edition) => calculator::operate_in_place_in(edition, stack, depth, literal).number(),
        Err(_) => UNKNOWN_EDITION,
    }
}

pub fn trenailer_push(stack: &mut [u8], depth: &mut usize, number: &[u8]) -> u8
    ensures { push_of stack.old depth.old number.now ≡ (outcome result depth.new, stack.new) }
{
    calculator::push_in_place::<false>(stack, depth, number).number()
}

pub fn trenailer_run(
    stack: &mut [u8],
    depth: &mut usize,
    literals: &[u8],
    position: &mut usize,
) -> u8
    ensures { run_of unnamed stack.old depth.old literals.now
        ≡ (run_outcome result position.new depth.new, stack.new) }
{
    let done = calculator::run(stack, *depth, literals);
    *depth = done.depth;
    *position = done.position;
    done.report.number()
}

pub fn trenailer_run_in(
    edition: u8,
    stack: &mut [u8],
    depth: &mut usize,
    literals: &[u8],
    position: &mut usize,
) -> u8
    ensures { run_numbered edition stack.old depth.old literals.now
        ≡ (run_outcome result position.new depth.new, stack.new) }
{
    match Edition::try_from(edition) {
        Ok(edition) => {
            let ran = calculator::run_in(edition, stack, *depth, literals);
            *depth = ran.depth;
            *position = ran.position;
            ran.report.number()
        }
        Err(_) => {
            *position = 0;
            UNKNOWN_EDITION
        }
    }
}

// The view is handed over as its place in the stack.
pub fn trenailer_view(stack: &[u8], depth: usize, start: &mut usize) -> usize
    ensures { Part stack.now depth start.old result start.new }
{
    let seen = calculator::view(stack, depth);
    if seen.len() == 0 {
        return 0;
    }
    *start = 5 * (depth - 1);
    5
}

// 0 refused, 1 blank, 2 odd, 3 a value. What a case does not name stays as it was.
pub fn trenailer_cell(
    report: u8,
    stack: &[u8],
    depth: usize,
    refused: &mut u8,
    value: &mut f64,
) -> u8
    ensures { (result, refused.new, value.new)
        ≡ told_of (cell_of report stack.now depth) refused.old value.old }
{
    let shown = calculator::cell(report, stack, depth);
    match shown {
        Cell::Refused(n) => {
            *refused = n;
            0
        }
        Cell::Blank => 1,
        Cell::Odd => 2,
        Cell::Value(x) => {
            *value = x;
            3
        }
    }
}

pub fn trenailer_leading_zeros(t: u32) -> u8
    ensures { LeadingZeros t result }
{
    calculator::leading_zeros(t) as u8
}

// 0, or the number that refuses the recording.
pub fn trenailer_replay(
    stack: &mut [u8],
    recording: &[u8],
    count: &mut usize,
    field: &mut u8,
    depth: &mut usize,
) -> u8
    ensures { let x = replay_of stack.old recording.now in
        (result, count.new, field.new, depth.new, stack.new) ≡ replay_told x.0.verdict x.0.depth x.1 }
{
    let done = replaying::replay(stack, recording);
    *depth = done.depth;
    let verdict = done.verdict;
    match verdict {
        Verdict::Agree(n) => {
            *count = n;
            *field = 0;
            0
        }
        Verdict::Differ(n, f) => {
            *count = n;
            *field = f.number();
            0
        }
        Verdict::Refused(refusal) => {
            *count = 0;
            *field = 0;
            refusal.number()
        }
    }
}
