ghost use Rattle.std.specs.Prelude.{◌≡◌, true, [], ◌∷◌};
ghost use Rattle.model.specs.declared.fact.Sign.TheVariants.{Negative};
ghost use Rattle.model.specs.Ascents.{blank_fact, blank_literal};
ghost use Rattle.model.specs.Literals.{fact_bytes, literal_bytes, sign_byte};
ghost use Rattle.std.proofs.Common.{rules};

use codec::blank::Blank;
use codec::coded::{Coded, Compact};

// Whether something is wanted true or false.
#[derive(Debug, Clone, Copy, Default, PartialEq, Eq)]
pub enum Sign {
    #[default]
    Negative,
    Positive,
}

// A fact by its number.
#[derive(Debug, Clone, Copy, Default, PartialEq, Eq, PartialOrd, Ord)]
pub struct Fact {
    pub number: u16,
}

// A literal: a fact with a sign.
// A type apart from lifted literals: what each speaks of is named by its field, a fact here, an atom there.
#[derive(Debug, Clone, Copy, Default, PartialEq, Eq)]
pub struct Literal {
    pub sign: Sign,
    pub fact: Fact,
}

// The byte of a sign is 0 for false and 1 for true.
impl Coded<1> for Sign {
    ghost code = { λ s. sign_byte s ∷ [] };

    ghost proper = { λ _. true };

    ghost narrow = { Prim.search rules };

    ghost fixed = { Prim.search rules };

    ghost one = { Prim.search rules };

    fn from_array(bytes: &[u8; 1]) -> Option<Sign> {
        match *bytes {
            [0] => Some(Sign::Negative),
            [1] => Some(Sign::Positive),
            _ => None,
        }
    }

    fn encode(&self) -> [u8; 1] {
        match *self {
            Sign::Negative => [0],
            Sign::Positive => [1],
        }
    }
}

impl Compact<1> for Sign {
    ghost small = { Prim.search rules };
}

impl Blank for Fact {
    ghost blank = { blank_fact };

    ghost only = { Prim.search rules };
}

impl Coded<2> for Fact {
    ghost code = { fact_bytes };

    ghost proper = { λ _. true };

    ghost narrow = { Prim.search rules };

    ghost fixed = { Prim.search rules };

    ghost one = { Prim.search rules };

    fn from_array(bytes: &[u8; 2]) -> Option<Fact> {
        Some(Fact {
            number: u16::from_be_bytes(*bytes),
        })
    }

    fn encode(&self) -> [u8; 2] {
        self.number.to_be_bytes()
    }
}

impl Compact<2> for Fact {
    ghost small = { Prim.search rules };
}

impl Blank for Literal {
    ghost blank = { blank_literal };

    ghost only = { Prim.search rules };
}

impl Coded<3> for Literal {
    ghost code = { literal_bytes };

    ghost proper = { λ _. true };

    ghost narrow = { Prim.search rules };

    ghost fixed = { Prim.search rules };

    ghost one = { Prim.search rules };

    fn from_array(bytes: &[u8; 3]) -> Option<Literal> {
        let [sign, high, low] = *bytes;
        Some(Literal {
            sign: Sign::from_array(&[sign])?,
            fact: Fact::from_array(&[high, low])?,
        })
    }

    fn encode(&self) -> [u8; 3] {
        let [sign]: [u8; 1] = self.sign.encode();
        let [high, low]: [u8; 2] = self.fact.encode();
        [sign, high, low]
    }
}

impl Compact<3> for Literal {
    ghost small = { Prim.search rules };
}
