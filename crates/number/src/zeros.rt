// How many zeros stand above a word's top bit: so many places make a magnitude normal, in one shift.
ghost use Rattle.number.specs.LeadingZeros.{LeadingZeros};

pub fn leading_zeros(t: u32) -> u32
    ensures { LeadingZeros t result }
{
    u32::leading_zeros(t)
}
