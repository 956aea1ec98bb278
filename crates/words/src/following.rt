// What follows a word of a line.
ghost use Rattle.std.specs.Prelude.{◌≡◌};
ghost use Rattle.std.specs.Option.{option_copied};
ghost use Rattle.words.specs.After.{after};

use crate::blanks;

// What follows a word and a blank, if anything does.
pub fn after<'a>(text: &'a [u8], word: &[u8]) -> Option<&'a [u8]>
    ensures { option_copied result ≡ after word.now text.now }
{
    let rest = text.strip_prefix(word)?;
    let (first, _) = rest.split_first()?;
    if !blanks::is_blank(*first) {
        return None;
    }
    let said = blanks::started(rest);
    if said.is_empty() { None } else { Some(said) }
}
