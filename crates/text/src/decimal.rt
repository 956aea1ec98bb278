// Decimal numbers.
ghost use Rattle.text.specs.Digits.{decimal_of};
ghost use Rattle.text.specs.Page.{Puts};

use crate::digits::digit_of;
use crate::page::Page;

impl Page<'_> {
    // Calls itself for the digits before the last. By hand: `write!` promises what it writes where it answers Ok, and a page leaves out what finds no room.
    #[tactic(auto, using(crate::proofs::Puts::decimal_one, crate::proofs::Puts::decimal_more, crate::proofs::Puts::puts_append))]
    pub fn put_decimal(&mut self, number: u64)
        ensures { Puts self.old self.new (decimal_of number) }
    {
        if number >= 10 {
            self.put_decimal(number / 10);
        }
        self.put(digit_of((number % 10) as u8));
    }
}
