// Which ROM's arithmetic is meant: the shipped one's, faults included, or the one that a branch had corrected.
#![tactic(auto)]

ghost use Rattle.std.specs.Prelude.{◌≡◌};
ghost use Rattle.edition.specs.Edition.{unnamed};
ghost use Rattle.edition.specs.Numbers.{Decodes};
ghost use Rattle.edition.specs.declared.Edition.TheVariants.{Shipped as ShippedEdition, Mended as MendedEdition};

#[derive(Clone, Copy)]
pub enum Edition {
    Shipped,
    Mended,
}

// A number that no edition has.
#[derive(Clone, Copy)]
pub struct UnknownEdition;

impl TryFrom<u8> for Edition {
    type Error = UnknownEdition;

    ghost try_from_gives = { Decodes };

    fn try_from(number: u8) -> Result<Self, UnknownEdition> {
        match number {
            0 => Ok(Edition::Shipped),
            1 => Ok(Edition::Mended),
            _ => Err(UnknownEdition),
        }
    }
}

// An edition as a type: what is generic over it is made once for each, and asks which it is before it runs.
pub trait Rom {
    ghost use Rattle.edition.specs.declared.Edition.{Edition};

    ghost EDITION: { Edition };

    const EDITION: Edition;
}

#[derive(Clone, Copy)]
pub struct Shipped;

#[derive(Clone, Copy)]
pub struct Mended;

impl Rom for Shipped {
    ghost EDITION = { ShippedEdition };

    const EDITION: Edition = Edition::Shipped;
}

impl Rom for Mended {
    ghost EDITION = { MendedEdition };

    const EDITION: Edition = Edition::Mended;
}

// The edition of a call that names none: this is the one place that says which.
pub type Unnamed = Shipped;

pub fn unnamed() -> Edition
    ensures { result ≡ unnamed }
{
    Unnamed::EDITION
}
