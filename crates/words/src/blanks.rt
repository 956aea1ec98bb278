// The text of a line: what stands before its comment, without the blanks around it.
ghost use Rattle.std.specs.Prelude.{◌≡◌, ◌≤◌, length, take};
ghost use Rattle.words.specs.Blanks.{blank, unmarked, comment_from, told_of, started, end_of};
ghost use Rattle.words.specs.Blanks.{trimmed};

#[tactic(auto, unfolding(crate::specs::Blanks::blank))]
pub fn is_blank(c: u8) -> bool
    ensures { result ≡ blank c }
{
    c == b' ' || c == b'\t'
}

// Without the byte-order mark that the first line may begin with.
#[tactic(auto, unfolding(crate::specs::Blanks::unmarked))]
fn unmarked(line: &[u8], number: u64) -> &[u8]
    ensures { result.now ≡ unmarked number line.now }
{
    if number != 1 {
        return line;
    }
    line.strip_prefix(b"\xEF\xBB\xBF").unwrap_or(line)
}

// The place of the comment, or the line's end.
fn comment(line: &[u8]) -> usize
    ensures { (result ≡ comment_from 0 line.now) × (result ≤ length line.now) }
{
    line.iter().position(|c| *c == b'#').unwrap_or(line.len())
}

// What stands before the comment of the line with this number, which goes beside it: the first alone may begin with a mark.
pub fn told(line: &[u8], number: u64) -> &[u8]
    ensures { result.now ≡ told_of number line.now }
{
    let all = unmarked(line, number);
    &all[..comment(all)]
}

// A text without the blanks after it: as `started`, from the other end.
#[tactic(auto, using(crate::proofs::Laws::ended_kept, crate::proofs::Laws::ended_blank, crate::proofs::Laws::ended_empty))]
fn ended(text: &[u8]) -> &[u8]
    ensures { result.now ≡ take (end_of text.now (length text.now)) text.now }
{
    let mut rest = text;
    while let Some((last, before)) = rest.split_last() {
        if !is_blank(*last) {
            return rest;
        }
        rest = before;
    }
    rest
}

// A text without the blanks before it.
#[tactic(auto, using(crate::proofs::Laws::started_kept, crate::proofs::Laws::started_blank, crate::proofs::Laws::started_empty))]
pub(crate) fn started(text: &[u8]) -> &[u8]
    ensures { result.now ≡ started text.now }
{
    let mut rest = text;
    while let Some((first, after)) = rest.split_first() {
        if !is_blank(*first) {
            return rest;
        }
        rest = after;
    }
    rest
}

// Not std's `trim_ascii`, which takes line feeds, form feeds and carriage returns for blanks too.
pub fn trimmed(text: &[u8]) -> &[u8]
    ensures { result.now ≡ trimmed text.now }
{
    started(ended(text))
}
