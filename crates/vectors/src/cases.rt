// A case: its fields, the call, and what is answered.
use crate::answers::Answer;
use crate::reading;
use text::Page;

// What is done with a case's bytes.
#[derive(Clone, Copy)]
enum Kind {
    // The one literal.
    Operate,
    // A number, pushed.
    Push,
    // A list of literals.
    Run,
    // A report, with which the stack is shown as it is.
    Show,
    // A recording, whatever the depth is.
    Replay,
    // A T, high byte first.
    LeadingZeros,
    // An edition's number, and the one literal.
    OperateIn,
    // An edition's number, and a list of literals.
    RunIn,
}

impl Kind {
    fn from_letter(letter: u8) -> Option<Kind> {
        match letter {
            b'o' => Some(Kind::Operate),
            b'p' => Some(Kind::Push),
            b'r' => Some(Kind::Run),
            b'c' => Some(Kind::Show),
            b'y' => Some(Kind::Replay),
            b'z' => Some(Kind::LeadingZeros),
            b'O' => Some(Kind::OperateIn),
            b'R' => Some(Kind::RunIn),
            _ => None,
        }
    }

    // The most bytes that a case may have: a list of literals, with the edition before it or none, or a recording.
    fn most(self) -> usize {
        match self {
            Kind::Replay => 65000,
            Kind::RunIn => 61001,
            _ => 61000,
        }
    }
}

fn replay(stack: &mut [u8], recording: &[u8]) -> Answer {
    let mut position = 0;
    let mut field = 0;
    let mut depth = 0;
    let report = trenailer::trenailer_replay(
        stack,
        recording,
        &mut position,
        &mut field,
        &mut depth,
    );
    Answer {
        field: Some(field),
        report,
        position,
        depth,
    }
}

// The number of zeros stands where a position would.
fn leading_zeros(depth: usize, t: u32) -> Answer {
    let zeros = trenailer::trenailer_leading_zeros(t);
    Answer {
        field: None,
        report: 0,
        position: zeros as usize,
        depth,
    }
}

fn operate_in(edition: u8, stack: &mut [u8], depth: usize, literal: u8) -> Answer {
    let mut after = depth;
    let report = trenailer::trenailer_operate_in(edition, stack, &mut after, literal);
    Answer {
        field: None,
        report,
        position: 0,
        depth: after,
    }
}

fn run_in(edition: u8, stack: &mut [u8], depth: usize, literals: &[u8]) -> Answer {
    let mut after = depth;
    let mut position = 0;
    let report = trenailer::trenailer_run_in(edition, stack, &mut after, literals, &mut position);
    Answer {
        field: None,
        report,
        position,
        depth: after,
    }
}

// What a case answers beside the bytes that it leaves; `None` where its kind has other bytes.
fn call(kind: Kind, stack: &mut [u8], depth: usize, bytes: &[u8]) -> Option<Answer> {
    match (kind, bytes) {
        (Kind::Operate, [literal]) => Some(calculator::operate(stack, depth, *literal).into()),
        (Kind::Push, number) => Some(calculator::push(stack, depth, number).into()),
        (Kind::Run, literals) => Some(calculator::run(stack, depth, literals).into()),
        (Kind::Show, [report]) => Some(Answer {
            field: None,
            report: *report,
            position: 0,
            depth,
        }),
        (Kind::Replay, recording) => Some(replay(stack, recording)),
        (Kind::LeadingZeros, [a, b, c, d]) => {
            Some(leading_zeros(depth, u32::from_be_bytes([*a, *b, *c, *d])))
        }
        (Kind::OperateIn, [edition, literal]) => Some(operate_in(*edition, stack, depth, *literal)),
        (Kind::RunIn, [edition, literals @ ..]) => Some(run_in(*edition, stack, depth, literals)),
        _ => None,
    }
}

// The answer to a line, put on a page; `None` where it is no case. The buffers are as long as the longest stack, list of literals and recording
// that a case may have: each is over a limit of the calculator's. A line that is too long has lost its line feed.
pub(crate) fn put_answer(page: &mut Page, line: &[u8]) -> Option<()> {
    let [letter, fields @ .., b'\n'] = line else {
        return None;
    };
    let kind = Kind::from_letter(*letter)?;
    let (depth, fields) = reading::split_once(fields, b' ')?;
    let (stack, bytes) = reading::split_once(fields, b' ')?;
    let depth = reading::number(depth)?;
    let mut stack_room = [0u8; 17000];
    let mut bytes_room = [0u8; 65000];
    let stack = reading::bytes(stack, &mut stack_room)?;
    let bytes = reading::bytes(bytes, &mut bytes_room)?;
    if kind.most() < bytes.len() {
        return None;
    }
    let answer = call(kind, stack, depth, bytes)?;
    answer.put(page, stack);
    Some(())
}
