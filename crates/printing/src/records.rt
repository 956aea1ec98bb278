// A record, in one line.
ghost use Rattle.std.specs.Prelude.{◌≡◌, ◌*◌, ◌≤◌, length};
ghost use Rattle.text.specs.Page.{Puts};
ghost use Rattle.printing.specs.Page.{shown_top, record_line, record_lines};

use crate::names::put_name;
use text::Page;

// A record of an empty stack has no top to show: depth 0 and zeros. No bytes stand for that, as `put_step` has it. Of a push it is what was pushed.
#[tactic(auto, unfolding(crate::specs::Page::shown_top))]
fn shown_top(bytes: &[u8]) -> &[u8]
    ensures { result.now ≡ shown_top bytes.now }
{
    if recording::literal_in(bytes) == 0
        || recording::depth_in(bytes) != 0
        || replaying::top_differs(&[], 0, bytes)
    {
        recording::top_in(bytes)
    } else {
        &[]
    }
}

#[tactic(auto, using(text::proofs::Puts::puts_append))]
fn put_record(page: &mut Page, i: usize, bytes: &[u8])
    ensures { Puts page.old page.new (record_line i bytes.now) }
{
    page.put_decimal(i as u64);
    page.put(b' ');
    put_name(page, recording::literal_in(bytes));
    page.put(b' ');
    wording::put_step(
        page,
        recording::report_in(bytes),
        recording::depth_in(bytes),
        shown_top(bytes),
    );
}

// The first n records.
#[tactic(auto, using(crate::proofs::Lines::lines_take), unfolding(crate::specs::Page::record_lines, text::specs::Put::puts_of))]
pub(crate) fn put_records(page: &mut Page, n: usize, recording: &[u8])
    requires { 16 * n ≤ length recording.now }
    ensures { Puts page.old page.new (record_lines n 0 recording.now) }
{
    let (records, _) = recording.as_chunks::<16>();
    for (i, record) in records[..n].iter().enumerate() {
        put_record(page, i, record);
    }
}
