// A run: a list of literals, done in turn until one is refused.
ghost use Rattle.std.specs.Prelude.{◌≡◌};
ghost use Rattle.edition.specs.Edition.{unnamed};
ghost use Rattle.slots.specs.Numbers.{number_of};
ghost use Rattle.calculator.specs.Run.{run_of};
ghost use Rattle.calculator.specs.Outcome.{run_outcome};

use crate::outcome::RunOutcome;
use edition::{Edition, Mended, Rom, Shipped, Unnamed};
use slots::Report;

// The most literals that a run takes.
const LITERALS_LIMIT: usize = 60000;

// Report 1 is checked once, even for an empty list.
#[inline(always)]
fn run_as<E: Rom>(stack: &mut [u8], depth: usize, literals: &[u8]) -> RunOutcome
    ensures { run_of E.EDITION stack.old depth literals.now
        ≡ (run_outcome (number_of result.report) result.position result.depth, stack.new) }
{
    if slots::over_limits(stack, depth) || LITERALS_LIMIT < literals.len() {
        return RunOutcome {
            report: Report::OverLimits,
            position: 0,
            depth,
        };
    }
    let mut after = depth;
    let (report, stopped) = 'run: {
        for (position, literal) in literals.iter().enumerate() {
            let report = operation::operate_as::<E, true>(stack, &mut after, *literal);
            if !report.is_done() {
                break 'run (report, position);
            }
        }
        (Report::Done, literals.len())
    };
    RunOutcome {
        report,
        position: stopped,
        depth: after,
    }
}

pub fn run(stack: &mut [u8], depth: usize, literals: &[u8]) -> RunOutcome
    ensures { run_of unnamed stack.old depth literals.now
        ≡ (run_outcome (number_of result.report) result.position result.depth, stack.new) }
{
    run_as::<Unnamed>(stack, depth, literals)
}

pub fn run_in(edition: Edition, stack: &mut [u8], depth: usize, literals: &[u8]) -> RunOutcome
    ensures { run_of edition stack.old depth literals.now
        ≡ (run_outcome (number_of result.report) result.position result.depth, stack.new) }
{
    match edition {
        Edition::Shipped => run_as::<Shipped>(stack, depth, literals),
        Edition::Mended => run_as::<Mended>(stack, depth, literals),
    }
}
