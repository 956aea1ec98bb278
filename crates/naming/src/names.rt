// A literal by its name in the ROM's listing, and an edition by its name.
ghost use Rattle.std.specs.Prelude.{◌≡◌};
ghost use Rattle.naming.specs.Names.{by_name, rows_of, literal_of, edition_of};

use edition::Edition;

const LITERALS: [(&[u8], u8); 11] = [
    (b"exchange", 1),
    (b"delete", 2),
    (b"subtract", 3),
    (b"multiply", 4),
    (b"divide", 5),
    (b"add", 15),
    (b"negate", 27),
    (b"int", 39),
    (b"duplicate", 49),
    (b"truncate", 58),
    (b"re-stack", 61),
];

const EDITIONS: [(&[u8], Edition); 2] = [
    (b"shipped", Edition::Shipped),
    (b"mended", Edition::Mended),
];

// What the first row has of which the text is the name.
fn by_name<A: Copy>(rows: &[(&[u8], A)], text: &[u8]) -> Option<A>
    ensures { result ≡ by_name (rows_of rows.now) text.now }
{
    rows.iter()
        .find(|(name, _)| *name == text)
        .map(|(_, named)| *named)
}

#[tactic(auto, unfolding(crate::specs::Names::literal_of))]
pub fn literal_of(text: &[u8]) -> Option<u8>
    ensures { result ≡ literal_of text.now }
{
    by_name(&LITERALS, text)
}

#[tactic(auto, unfolding(crate::specs::Names::edition_of))]
pub fn edition_of(text: &[u8]) -> Option<Edition>
    ensures { result ≡ edition_of text.now }
{
    by_name(&EDITIONS, text)
}
