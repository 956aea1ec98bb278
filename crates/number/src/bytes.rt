// A number's five bytes.
ghost use Rattle.std.specs.Prelude.{◌≡◌, [], ◌∷◌};
ghost use Rattle.number.specs.Number.{b2, b3, b4, b5};

use super::Number;

impl Number {
    // b1 to b5.
    pub fn to_bytes(self) -> [u8; 5]
        ensures { result ≡ self.b1 ∷ b2 self ∷ b3 self ∷ b4 self ∷ b5 self ∷ [] }
    {
        let [b2, b3, b4, b5] = self.word.to_be_bytes();
        [self.b1, b2, b3, b4, b5]
    }
}
