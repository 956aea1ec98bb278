// A literal's name, as a sheet has it: a match, since naming's table, the other way round, would be searched and could lack a row.
ghost use Rattle.text.specs.Page.{Puts};
ghost use Rattle.printing.specs.Names.{number_name, name_of};

use literals::table;
use text::Page;

#[tactic(auto, unfolding(crate::specs::Names::name_of))]
pub(crate) fn put_name(page: &mut Page, literal: u8)
    ensures { Puts page.old page.new (name_of literal) }
{
    match literal {
        0 => page.put_all(b"push"),
        table::EXCHANGE => page.put_all(b"exchange"),
        table::DELETE => page.put_all(b"delete"),
        table::SUBTRACT => page.put_all(b"subtract"),
        table::MULTIPLY => page.put_all(b"multiply"),
        table::DIVIDE => page.put_all(b"divide"),
        table::ADD => page.put_all(b"add"),
        table::NEGATE => page.put_all(b"negate"),
        table::INT => page.put_all(b"int"),
        table::DUPLICATE => page.put_all(b"duplicate"),
        table::TRUNCATE => page.put_all(b"truncate"),
        table::RE_STACK => page.put_all(b"re-stack"),
        _ => put_number(page, literal),
    }
}

// One that is in no row.
#[tactic(auto, using(text::proofs::Puts::puts_append), unfolding(text::specs::Put::puts_of))]
fn put_number(page: &mut Page, literal: u8)
    ensures { Puts page.old page.new (number_name literal) }
{
    page.put_all(b"literal ");
    page.put_decimal(literal as u64);
}
