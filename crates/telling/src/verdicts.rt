// How a replay ended, in one line.
ghost use Rattle.text.specs.Page.{Puts};
ghost use Rattle.replaying.specs.Answer.{verdict_of};
ghost use Rattle.telling.specs.Verdict.{field_name, verdict_line};

use replaying::{Field, Verdict};
use text::Page;

#[tactic(auto, unfolding(crate::specs::Verdict::field_name))]
fn put_field(page: &mut Page, field: Field)
    ensures { Puts page.old page.new (field_name field) }
{
    match field {
        Field::Report => page.put_all(b" report\n"),
        Field::Depth => page.put_all(b" depth\n"),
        Field::Top => page.put_all(b" top\n"),
    }
}

#[tactic(auto, using(text::proofs::Puts::puts_append), unfolding(crate::specs::Verdict::verdict_line, text::specs::Put::puts_of))]
pub fn put_verdict(page: &mut Page, verdict: Verdict)
    ensures { Puts page.old page.new (verdict_line (verdict_of verdict)) }
{
    match verdict {
        Verdict::Agree(n) => {
            page.put_all(b"agree ");
            page.put_decimal(n as u64);
            page.put(b'\n');
        }
        Verdict::Differ(n, field) => {
            page.put_all(b"differ ");
            page.put_decimal(n as u64);
            put_field(page, field);
        }
        Verdict::Refused(refusal) => {
            page.put_all(b"refused ");
            page.put_decimal(refusal.number() as u64);
            page.put(b'\n');
        }
    }
}
