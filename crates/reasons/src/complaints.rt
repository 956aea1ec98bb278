// Why a line can't be taken, and what standard error has of it then.
ghost use Rattle.std.specs.Prelude.{◌≡◌};
ghost use Rattle.text.specs.Page.{Puts};
ghost use Rattle.reasons.specs.Complaint.{why_full, why_edition, why_not, why_text, complaint_of};

use crate::why::Why;
use edition::Edition;
use sheet::{Fault, Step};
use text::Page;

// Whether 64,000 bytes have room for a record more.
#[tactic(auto, unfolding(crate::specs::Complaint::why_full))]
fn why_full(end: usize) -> Option<Why>
    ensures { result ≡ why_full end }
{
    if 63984 < end {
        return Some(Why::Full);
    }
    None
}

// Recordings are of the shipped edition.
#[tactic(auto, unfolding(crate::specs::Complaint::why_edition))]
fn why_edition(edition: Edition) -> Option<Why>
    ensures { result ≡ why_edition edition }
{
    match edition {
        Edition::Shipped => None,
        Edition::Mended => Some(Why::Mended),
    }
}

// None where the line is taken.
#[tactic(auto, unfolding(crate::specs::Complaint::why_not))]
pub fn why_not(said: Result<Step, Fault>, end: usize) -> Option<Why>
    ensures { result ≡ why_not said end }
{
    match said {
        Ok(Step::Nothing) => None,
        Ok(Step::Literal(0)) => Some(Why::Zero),
        Ok(Step::Push(_) | Step::Literal(_)) => why_full(end),
        Ok(Step::Named(edition)) => why_edition(edition),
        Err(fault) => Some(Why::Unread(fault)),
    }
}

#[tactic(auto, unfolding(crate::specs::Complaint::why_text))]
fn put_why(page: &mut Page, why: Why)
    ensures { Puts page.old page.new (why_text why) }
{
    match why {
        Why::Unread(fault) => wording::put_fault(page, fault),
        Why::Mended => page.put_all(b"recordings are of the shipped edition"),
        Why::Zero => page.put_all(b"a recording has 0 for a push, and can't hold literal 0"),
        Why::Full => page.put_all(b"a recording holds 4000 records"),
    }
}

// Not reply's: the reason is another enum, and what follows it is always the same.
pub fn put_complaint(page: &mut Page, number: u64, text: &[u8], why: Why)
    ensures { Puts page.old page.new (complaint_of number text.now why) }
{
    wording::put_place(page, b"record: line ", number, text);
    put_why(page, why);
    page.put_all(b"; no recording was written\n");
}
