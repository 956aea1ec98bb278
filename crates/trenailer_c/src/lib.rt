// The C interface's exports: include/trenailer.h declares these nine functions. Each is the one of its name in the crate trenailer, and
// promises the same. A slice passes as a pointer and a length, and what a function answers beside its result goes out through a pointer.
// The two crates are apart since a crate is a library or a static library, and `vectors` calls trenailer.
#![tactic(auto)]

ghost use Rattle.std.specs.Prelude.{◌≡◌};
ghost use Rattle.edition.specs.Edition.{unnamed};
ghost use Rattle.number.specs.LeadingZeros.{LeadingZeros};
ghost use Rattle.slots.specs.Push.{push_of};
ghost use Rattle.display.specs.Cell.{cell_of};
ghost use Rattle.literals.specs.Operate.{outcome, operate_of};
ghost use Rattle.calculator.specs.Run.{run_of};
ghost use Rattle.calculator.specs.Outcome.{run_outcome};
ghost use Rattle.replaying.specs.Replay.{replay_of};
ghost use Rattle.trenailer.specs.Told.{Part, told_of, replay_told};
ghost use Rattle.trenailer.specs.Numbered.{operate_numbered, run_numbered};

#[unsafe(no_mangle)]
pub extern "C" fn trenailer_operate(stack: &mut [u8], depth: &mut usize, literal: u8) -> u8
    ensures { operate_of unnamed stack.old depth.old literal ≡ (outcome result depth.new, stack.new) }
{
    trenailer::trenailer_operate(stack, depth, literal)
}

#[unsafe(no_mangle)]
pub extern "C" fn trenailer_operate_in(
    edition: u8,
    stack: &mut [u8],
    depth: &mut usize,
    literal: u8,
) -> u8
    ensures { operate_numbered edition stack.old depth.old literal ≡ (outcome result depth.new, stack.new) }
{
    trenailer::trenailer_operate_in(edition, stack, depth, literal)
}

#[unsafe(no_mangle)]
pub extern "C" fn trenailer_push(stack: &mut [u8], depth: &mut usize, number: &[u8]) -> u8
    ensures { push_of stack.old depth.old number.now ≡ (outcome result depth.new, stack.new) }
{
    trenailer::trenailer_push(stack, depth, number)
}

#[unsafe(no_mangle)]
pub extern "C" fn trenailer_run(
    stack: &mut [u8],
    depth: &mut usize,
    literals: &[u8],
    position: &mut usize,
) -> u8
    ensures { run_of unnamed stack.old depth.old literals.now
        ≡ (run_outcome result position.new depth.new, stack.new) }
{
    trenailer::trenailer_run(stack, depth, literals, position)
}

#[unsafe(no_mangle)]
pub extern "C" fn trenailer_run_in(
    edition: u8,
    stack: &mut [u8],
    depth: &mut usize,
    literals: &[u8],
    position: &mut usize,
) -> u8
    ensures { run_numbered edition stack.old depth.old literals.now
        ≡ (run_outcome result position.new depth.new, stack.new) }
{
    trenailer::trenailer_run_in(edition, stack, depth, literals, position)
}

#[unsafe(no_mangle)]
pub extern "C" fn trenailer_view(stack: &[u8], depth: usize, start: &mut usize) -> usize
    ensures { Part stack.now depth start.old result start.new }
{
    trenailer::trenailer_view(stack, depth, start)
}

#[unsafe(no_mangle)]
pub extern "C" fn trenailer_cell(
    report: u8,
    stack: &[u8],
    depth: usize,
    refused: &mut u8,
    value: &mut f64,
) -> u8
    ensures { (result, refused.new, value.new)
        ≡ told_of (cell_of report stack.now depth) refused.old value.old }
{
    trenailer::trenailer_cell(report, stack, depth, refused, value)
}

#[unsafe(no_mangle)]
pub extern "C" fn trenailer_leading_zeros(t: u32) -> u8
    ensures { LeadingZeros t result }
{
    trenailer::trenailer_leading_zeros(t)
}

#[unsafe(no_mangle)]
pub extern "C" fn trenailer_replay(
    stack: &mut [u8],
    recording: &[u8],
    count: &mut usize,
    field: &mut u8,
    depth: &mut usize,
) -> u8
    ensures { let x = replay_of stack.old recording.now in
        (result, count.new, field.new, depth.new, stack.new) ≡ replay_told x.0.verdict x.0.depth x.1 }
{
    trenailer::trenailer_replay(stack, recording, count, field, depth)
}
