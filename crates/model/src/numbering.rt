ghost use Rattle.std.specs.Prelude.{◌≡◌, ◌<◌, ◌≤◌, true, Some};
ghost use Rattle.model.specs.Facts.{facts_of};
ghost use Rattle.model.specs.Numbering.{AtomFound, fact_of, object_in, object_of, place};
ghost use Rattle.model.specs.Vocabularies.{terms_fit};

use crate::fact::Fact;
use crate::predicates::total;
use crate::term::{Atom, Term};
use crate::vocabulary::{Arity, Vocabulary};

impl Term {
    // The number of its object; none for a variable.
    fn object(self) -> Option<u8>
        ensures { result ≡ object_in self }
    {
        match self {
            Term::Object(o) => Some(o),
            Term::Variable(_) => None,
        }
    }
}

impl Vocabulary {
    // The fact of an atom that has no variable; none where the vocabulary has no such atom.
    pub fn fact(&self, atom: Atom) -> Option<Fact>
        ensures { result ≡ fact_of self.now atom }
    {
        if !self.has(0, atom) {
            return None;
        }
        let arities = self.arities.as_slice();
        let p = atom.predicate as usize;
        // those before it: `has` says that there is such a predicate
        let first = total(self.objects, &arities[0..p]);
        let at = self.place_of(arities[p], atom.first.object()?, atom.second.object()?);
        Some(Fact { number: first + at })
    }

    // The atom that has a fact; none where there is no such fact.
    pub fn atom(&self, fact: Fact) -> Option<Atom>
        ensures { AtomFound self.now fact result }
    {
        let mut left = fact.number;
        for (p, arity) in self.arities.as_slice().iter().enumerate() {
            let size = arity.facts(self.objects);
            if left < size {
                let (first, second) = self.terms_at(*arity, left);
                return Some(Atom {
                    predicate: p as u8,
                    first,
                    second,
                });
            }
            left -= size;
        }
        None
    }

    // The place of the fact of two objects among those of its predicate.
    fn place_of(&self, arity: Arity, o: u8, r: u8) -> u16
        ensures place { result ≡ place self.now.objects arity o r }
        ensures bound { result ≤ 4335 }
    {
        match arity {
            Arity::Zero => 0,
            Arity::One => o as u16,
            Arity::Two => o as u16 * self.objects as u16 + r as u16,
        }
    }

    // The terms of the fact in a place among those of its predicate.
    fn terms_at(&self, arity: Arity, at: u16) -> (Term, Term)
        requires { at < facts_of self.now.objects arity }
        ensures place { place self.now.objects arity (object_of result.0) (object_of result.1) ≡ at }
        ensures fits { terms_fit self.now.objects 0 (Some arity) result.0 result.1 ≡ true }
    {
        let n = self.objects as u16;
        match arity {
            Arity::Zero => (Term::Object(0), Term::Object(0)),
            Arity::One => (Term::Object(at as u8), Term::Object(0)),
            Arity::Two => (Term::Object((at / n) as u8), Term::Object((at % n) as u8)),
        }
    }
}
