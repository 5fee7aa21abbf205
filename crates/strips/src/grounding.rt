ghost use Rattle.std.specs.Prelude.{◌≡◌};
ghost use Rattle.strips.specs.Grounding.{argument_fits, first_argument, ground, object_under, second_argument};

use model::term::{Atom, Term};

// The objects that an operator's two parameters stand for; 0 where the operator lacks the parameter.
// 0 and no Option, since the number of a move has 0 there, and 0 is what is asked of it.
#[derive(Debug, Clone, Copy, PartialEq, Eq)]
pub(crate) struct Arguments {
    pub(crate) first: u8,
    pub(crate) second: u8,
}

impl Arguments {
    // The arguments of a move.
    pub(crate) fn of(number: u16) -> Arguments
        ensures first { result.first ≡ first_argument number }
        ensures second { result.second ≡ second_argument number }
    {
        Arguments {
            first: (number / 16 % 16) as u8,
            second: (number % 16) as u8,
        }
    }

    // The object that a term stands for.
    fn object(self, term: Term) -> u8
        ensures { result ≡ object_under self.first self.second term }
    {
        match term {
            Term::Object(o) => o,
            // an operator has two parameters at most, so a variable that is not the first is the second
            Term::Variable(0) => self.first,
            Term::Variable(_) => self.second,
        }
    }

    // An atom with objects in place of the parameters.
    pub(crate) fn atom(self, atom: Atom) -> Atom
        ensures { result ≡ ground self.first self.second atom }
    {
        Atom {
            predicate: atom.predicate,
            first: Term::Object(self.object(atom.first)),
            second: Term::Object(self.object(atom.second)),
        }
    }
}

// Whether an operator with some parameters takes an argument: an object where it has the parameter, else 0.
// `place` is the parameter's number, as variables have it: 0 or 1.
pub(crate) fn argument_fits(objects: u8, parameters: u8, place: u8, argument: u8) -> bool
    ensures { result ≡ argument_fits objects parameters place argument }
{
    if place < parameters {
        argument < objects
    } else {
        argument == 0
    }
}
