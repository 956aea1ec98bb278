// What a step gave: the report, the depth and the top's bytes.
ghost use Rattle.text.specs.Page.{Puts};
ghost use Rattle.wording.specs.Wording.{top_of, step_answer};

use text::Page;

// A space before each byte. For no top ` -` stands here, and five zeros in a record.
#[tactic(auto, unfolding(crate::specs::Wording::top_of))]
fn put_top(page: &mut Page, top: &[u8])
    ensures { Puts page.old page.new (top_of top.now) }
{
    if top.is_empty() {
        page.put_all(b" -");
    } else {
        page.put_each(b" ", top);
    }
}

// The report is a byte: `show` puts what a record has, which may be any.
#[tactic(auto, using(text::proofs::Puts::puts_append))]
pub fn put_step(page: &mut Page, report: u8, depth: usize, top: &[u8])
    ensures { Puts page.old page.new (step_answer report depth top.now) }
{
    page.put_decimal(report as u64);
    page.put(b' ');
    page.put_decimal(depth as u64);
    put_top(page, top);
    page.put(b'\n');
}
