// What a call answers: done, or why it was refused. Each has the number that the C interface gives.
ghost use Rattle.std.specs.Prelude.{◌≡◌, ◌==◌};
ghost use Rattle.slots.specs.Numbers.{number_of};

#[derive(Clone, Copy)]
pub enum Report {
    Done = 0,
    // A stack over 16,000 bytes, a depth that it does not hold, or more than 60,000 literals.
    OverLimits = 1,
    // Fewer numbers than the literal takes.
    TooFew = 2,
    // An operand or what is pushed is no number.
    Malformed = 3,
    // None for a push or a duplicate.
    NoRoom = 4,
    UnknownLiteral = 5,
    // The answer has no exponent byte.
    TooBig = 6,
}

impl Report {
    pub fn number(self) -> u8
        ensures { result ≡ number_of self }
    {
        self as u8
    }

    pub fn is_done(self) -> bool
        ensures { result ≡ (number_of self == 0) }
    {
        matches!(self, Report::Done)
    }
}
