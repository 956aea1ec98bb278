// Which line of a sheet it is, and what is wrong with it.
ghost use Rattle.std.specs.Prelude.{◌≡◌};
ghost use Rattle.text.specs.Page.{Puts};
ghost use Rattle.wording.specs.Wording.{shown_byte, shown_of, place_of, fault_of};

use sheet::Fault;
use text::Page;

// A byte that is printed as it is, or `?`.
fn shown_byte(c: u8) -> u8
    ensures { result ≡ shown_byte c }
{
    match c {
        32..=126 => c,
        _ => b'?',
    }
}

#[tactic(auto, using(crate::proofs::Shown::shown_take), unfolding(crate::specs::Wording::shown_of, text::specs::Put::puts_of))]
fn put_shown(page: &mut Page, bytes: &[u8])
    ensures { Puts page.old page.new (shown_of bytes.now) }
{
    for byte in bytes {
        page.put(shown_byte(*byte));
    }
}

// The line's number, and up to 60 bytes of what it says.
#[tactic(auto, using(text::proofs::Puts::puts_append))]
pub fn put_place(page: &mut Page, before: &[u8], number: u64, text: &[u8])
    ensures { Puts page.old page.new (place_of before.now number text.now) }
{
    page.put_all(before);
    page.put_decimal(number);
    page.put_all(b": ");
    put_shown(page, text::first(text, 60));
    page.put_all(b": ");
}

#[tactic(auto, unfolding(crate::specs::Wording::fault_of))]
pub fn put_fault(page: &mut Page, fault: Fault)
    ensures { Puts page.old page.new (fault_of fault) }
{
    match fault {
        Fault::LongLine => page.put_all(b"it is longer than 65535 bytes"),
        Fault::BareNumber => page.put_all(
            b"a number alone is not read: write push N to enter it, or literal N for a literal",
        ),
        Fault::BadPush => page.put_all(b"push takes a whole number from -65535 to 65535"),
        Fault::BadLiteral => page.put_all(b"literal takes a whole number from 0 to 255"),
        Fault::BadEdition => page.put_all(b"edition takes shipped or mended"),
        Fault::NoStep => page.put_all(
            b"a line is five bytes in hex as 00 00 04 00 00, push N, literal N, a literal's name, or edition NAME",
        ),
    }
}
