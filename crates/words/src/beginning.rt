// Whether a text begins with another.
ghost use Rattle.std.specs.Prelude.{◌≡◌};
ghost use Rattle.words.specs.Begins.{begins};

#[tactic(auto, using(crate::proofs::Laws::begun))]
pub fn begins(text: &[u8], word: &[u8]) -> bool
    ensures { result ≡ begins word.now text.now }
{
    text.starts_with(word)
}
