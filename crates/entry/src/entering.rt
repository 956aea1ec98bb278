// One line of a sheet, from its number, the stack, the depth and the recording so far to what it leaves of them, or to what is wrong with it.
ghost use Rattle.std.specs.Prelude.{◌≡◌, IfOk, IfErr, is_ok};
ghost use Rattle.words.specs.Blanks.{told_of};
ghost use Rattle.sheet.specs.Line.{line_of};
ghost use Rattle.reasons.specs.Complaint.{why_not, is_taken};
ghost use Rattle.entry.specs.Entry.{line_recorded};

use crate::records;
use text::Page;

// The depth after a line that is taken, and the place after its record.
#[derive(Clone, Copy)]
pub struct Recorded {
    pub depth: usize,
    pub end: usize,
}

// An error is how much was put for standard error, of a line that can't be taken.
#[tactic(auto, unfolding(crate::specs::Entry::line_recorded, crate::specs::Entry::recorded_by, reasons::specs::Complaint::is_taken))]
pub fn record_line(
    stack: &mut [u8],
    depth: usize,
    line: &[u8],
    number: u64,
    recording: &mut [u8],
    end: usize,
    err: &mut [u8],
) -> Result<Recorded, usize>
    ensures taken { is_ok result ≡ is_taken (why_not (line_of (told_of number line.now)) end) }
    ensures recorded { IfOk result (λ recorded. ((stack.new, recorded.depth, (recording.new, recorded.end)), (err.new, 0))
        ≡ line_recorded stack.old depth number line.now (recording.old, end) err.old) }
    ensures said { IfErr result (λ said. ((stack.new, depth, (recording.new, end)), (err.new, said))
        ≡ line_recorded stack.old depth number line.now (recording.old, end) err.old) }
{
    let told = sheet::told(line, number);
    let said = sheet::line_of(told);
    if let Some(why) = reasons::why_not(said, end) {
        let mut complaint = Page::new(err);
        reasons::put_complaint(&mut complaint, number, sheet::trimmed(told), why);
        return Err(complaint.len());
    }
    let mut page = Page::after(recording, end);
    let depth = records::record_step(stack, depth, said, &mut page);
    Ok(Recorded {
        depth,
        end: page.len(),
    })
}
