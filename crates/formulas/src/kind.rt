// What a line says, and the number by which a line has it.
ghost use Rattle.std.specs.Prelude.{◌≡◌};
ghost use Rattle.formulas.specs.Kind.{number_of, Decodes};
ghost use Rattle.formulas.specs.Lines.{uses, only_modal};

// The lawful kinds of lines.
#[derive(Clone, Copy, PartialEq, Eq, Debug)]
pub enum Kind {
    // Holds at every place.
    Everywhere = 0,
    // Holds where the line of the first pair does not.
    Negation = 1,
    // Holds where the lines of the first and the second pair both do.
    Conjunction = 2,
    // Holds at a place with a transition of the line's label and total that puts, for each used pair, its count of tokens where its line holds.
    Modal = 3,
}

// A number that no kind has.
#[derive(Clone, Copy, PartialEq, Eq, Debug)]
pub struct UnknownKind(pub u8);

impl TryFrom<u8> for Kind {
    type Error = UnknownKind;

    ghost try_from_gives = { Decodes };

    fn try_from(number: u8) -> Result<Kind, UnknownKind> {
        match number {
            0 => Ok(Kind::Everywhere),
            1 => Ok(Kind::Negation),
            2 => Ok(Kind::Conjunction),
            3 => Ok(Kind::Modal),
            _ => Err(UnknownKind(number)),
        }
    }
}

impl Kind {
    // The number that stands in a line of the kind.
    // Kept: `u8::from(kind)` would be no plainer than the name `number`.
    pub fn number(self) -> u8
        ensures { result ≡ number_of self }
    {
        self as u8
    }

    // How many of its pairs a line of the kind names, where `used` are used.
    pub(crate) fn named_pairs(self, used: u8) -> u8
        ensures { result ≡ uses (number_of self) used }
    {
        match self {
            Kind::Everywhere => 0,
            Kind::Negation => 1,
            Kind::Conjunction => 2,
            Kind::Modal => used,
        }
    }

    // A limit that only modal lines have; for the others it is 0.
    pub(crate) fn modal_only(self, most: u8) -> u8
        ensures { result ≡ only_modal (number_of self) most }
    {
        if self == Kind::Modal { most } else { 0 }
    }
}
