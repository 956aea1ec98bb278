// An operand, read from its slot. What is read is read behind the question whether the number is full: a full one's word, another's b2 and low half. With a word
// read before, the compiler keeps the words of both operands while it looks at their forms.
ghost use Rattle.number.specs.Operand.{Unpacks};
ghost use Rattle.slots.specs.Reach.{number_at};

use number::Operand;

pub fn operand(stack: &[u8], depth: usize, above: u8) -> Option<Operand>
    ensures { Unpacks (number_at stack.now depth above) result }
{
    let b1 = places::b1_at(stack, depth, above);
    if b1 != 0 {
        let word = places::word_at(stack, depth, above);
        return Some(Operand {
            sign: word,
            m: word,
            e: b1 as u32,
        });
    }
    number::operand_of(
        places::b2_at(stack, depth, above) as u32,
        places::low_at(stack, depth, above),
    )
}
