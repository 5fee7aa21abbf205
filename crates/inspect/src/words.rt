// Words for what a feeder speaks of: terms, atoms, facts and literals.
ghost use Rattle.std.specs.Prelude.{◌≡◌, Some};
ghost use Rattle.feeder.specs.Tables.{plant_kind, plant_words};
ghost use Rattle.inspect.specs.Names.{network_name};
ghost use Rattle.inspect.specs.Texts.{atom_text, lifted_text, predicate_text, sign_word, term_text};

use feeder::header::PlantKind;
use feeder::tables::PlantTable;
use model::fact::{Fact, Literal, Sign};
use model::term::{Atom, Term};
use model::vocabulary::{Arity, Vocabulary};
use plants::literal::LiftedLiteral;
use std::fmt;
use std::fmt::Display;

// What it takes to put facts into words: the objects and predicates, and the kind of plant, which names the predicates.
#[derive(Clone, Copy)]
pub(crate) struct Words {
    pub(crate) vocabulary: Vocabulary,
    pub(crate) kind: PlantKind,
}

// A thing and the words for it, which is how a thing is printed.
#[derive(Clone, Copy)]
pub(crate) struct InWords<'a, T> {
    pub(crate) words: &'a Words,
    pub(crate) of: &'a T,
}

// Things and the words for them, and a text for no things.
#[derive(Clone, Copy)]
pub(crate) struct Listed<'a, T> {
    words: &'a Words,
    things: &'a [T],
    none: &'a str,
}

// The words of a plant.
impl From<&PlantTable> for Words {
    ghost from_gives = { λ plant words. (words.vocabulary ≡ plant_words plant.now) × (words.kind ≡ plant_kind plant.now) };

    fn from(plant: &PlantTable) -> Words {
        Words {
            vocabulary: plant.vocabulary(),
            kind: plant.kind(),
        }
    }
}

impl Words {
    // A thing in these words.
    pub(crate) fn say<'a, T>(&'a self, of: &'a T) -> InWords<'a, T>
        ensures words { result.words.now ≡ self.now }
        ensures of { result.of.now ≡ of.now }
    {
        InWords { words: self, of }
    }

    // Things in these words.
    pub(crate) fn list<'a, T>(&'a self, things: &'a [T], none: &'a str) -> Listed<'a, T> {
        Listed {
            words: self,
            things,
            none,
        }
    }
}

// A predicate, by its number.
#[derive(Clone, Copy)]
pub(crate) struct Predicate(pub(crate) u8);

// The name of a predicate of a network.
// By number, as records name predicates: a network has just three, whose fixed texts are printed as they stand.
fn network_name(predicate: u8) -> &'static str
    ensures { result.now ≡ network_name predicate }
{
    match predicate {
        0 => "closed",
        1 => "earthed",
        _ => "live",
    }
}

impl fmt::Display for InWords<'_, Predicate> {
    ghost output = { λ x. Some (predicate_text x.words.now x.of.now.0) };

    fn fmt<W: fmt::Write>(&self, f: &mut fmt::Formatter<W>) -> fmt::Result {
        let Predicate(number) = *self.of;
        match self.words.kind {
            PlantKind::Network => f.write_str(network_name(number)),
            PlantKind::Actions => {
                f.write_str("p")?;
                number.fmt(f)
            }
        }
    }
}

impl fmt::Display for InWords<'_, Term> {
    ghost output = { λ x. Some (term_text x.of.now) };

    fn fmt<W: fmt::Write>(&self, f: &mut fmt::Formatter<W>) -> fmt::Result {
        match *self.of {
            Term::Object(number) => number.fmt(f),
            Term::Variable(number) => {
                f.write_str("x")?;
                number.fmt(f)
            }
        }
    }
}

// An atom is its predicate, and in brackets the terms that the predicate takes.
// Its parts are printed one by one, as all that is printed often here: a `write!` within a `write!` costs half as much again.
impl fmt::Display for InWords<'_, Atom> {
    ghost output = { λ x. Some (atom_text x.words.now x.of.now) };

    fn fmt<W: fmt::Write>(&self, f: &mut fmt::Formatter<W>) -> fmt::Result {
        let words = self.words;
        let atom = self.of;
        words.say(&Predicate(atom.predicate)).fmt(f)?;
        match words.vocabulary.arity(atom.predicate) {
            None | Some(Arity::Zero) => Ok(()),
            Some(Arity::One) => {
                f.write_str("(")?;
                words.say(&atom.first).fmt(f)?;
                f.write_str(")")
            }
            Some(Arity::Two) => {
                f.write_str("(")?;
                words.say(&atom.first).fmt(f)?;
                f.write_str(", ")?;
                words.say(&atom.second).fmt(f)?;
                f.write_str(")")
            }
        }
    }
}

// No `output` here, nor where facts are listed: `atom` is held to answer some atom of a fact, not which.
impl fmt::Display for InWords<'_, Fact> {
    fn fmt<W: fmt::Write>(&self, f: &mut fmt::Formatter<W>) -> fmt::Result {
        match self.words.vocabulary.atom(*self.of) {
            Some(atom) => self.words.say(&atom).fmt(f),
            // no fact of a feeder comes here
            None => write!(f, "fact {}", self.of.number),
        }
    }
}

// The word for a sign, which stands before an atom.
// A fixed text and no `Display`: it is printed as it stands, between other things.
fn sign_word(sign: Sign) -> &'static str
    ensures { result.now ≡ sign_word sign }
{
    match sign {
        Sign::Negative => "not ",
        Sign::Positive => "",
    }
}

impl fmt::Display for InWords<'_, Literal> {
    fn fmt<W: fmt::Write>(&self, f: &mut fmt::Formatter<W>) -> fmt::Result {
        f.write_str(sign_word(self.of.sign))?;
        self.words.say(&self.of.fact).fmt(f)
    }
}

impl fmt::Display for InWords<'_, LiftedLiteral> {
    ghost output = { λ x. Some (lifted_text x.words.now x.of.now) };

    fn fmt<W: fmt::Write>(&self, f: &mut fmt::Formatter<W>) -> fmt::Result {
        f.write_str(sign_word(self.of.sign))?;
        self.words.say(&self.of.atom).fmt(f)
    }
}

impl<'a, T> fmt::Display for Listed<'a, T>
where
    InWords<'a, T>: fmt::Display,
{
    fn fmt<W: fmt::Write>(&self, f: &mut fmt::Formatter<W>) -> fmt::Result {
        let Some((first, others)) = self.things.split_first() else {
            return f.write_str(self.none);
        };
        self.words.say(first).fmt(f)?;
        for thing in others {
            f.write_str(", ")?;
            self.words.say(thing).fmt(f)?;
        }
        Ok(())
    }
}
