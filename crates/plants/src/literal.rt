ghost use Rattle.plants.specs.Lifted.{blank_lifted, lifted_bytes, lifted_proper};
ghost use Rattle.std.proofs.Common.{rules};

use codec::blank::Blank;
use codec::coded::{Coded, Compact};
use model::fact::Sign;
use model::term::Atom;

// A literal whose atom may speak of an operator's parameters.
// A type apart from literals on facts: what each speaks of is named by its field, an atom here, a fact there.
#[derive(Debug, Clone, Copy, Default, PartialEq, Eq)]
pub struct LiftedLiteral {
    pub sign: Sign,
    pub atom: Atom,
}

impl Blank for LiftedLiteral {
    ghost blank = { blank_lifted };

    ghost only = { Prim.search rules };
}

impl Coded<4> for LiftedLiteral {
    ghost code = { lifted_bytes };

    ghost proper = { lifted_proper };

    ghost narrow = { Prim.search rules };

    ghost fixed = { Prim.search rules };

    ghost one = { Prim.search rules };

    fn from_array(bytes: &[u8; 4]) -> Option<LiftedLiteral> {
        let [sign, predicate, first, second] = *bytes;
        Some(LiftedLiteral {
            sign: Sign::from_array(&[sign])?,
            atom: Atom::from_array(&[predicate, first, second])?,
        })
    }

    fn encode(&self) -> [u8; 4] {
        let [sign]: [u8; 1] = self.sign.encode();
        let [predicate, first, second]: [u8; 3] = self.atom.encode();
        [sign, predicate, first, second]
    }
}

impl Compact<4> for LiftedLiteral {
    ghost small = { Prim.search rules };
}
