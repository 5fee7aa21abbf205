ghost use Rattle.std.specs.Prelude.{◌≡◌, ℕ, ◌<◌, true, length, MatchResult};
ghost use Rattle.model.specs.Pictures.{holds};
ghost use Rattle.strips.specs.Grounding.{ground_fits, ground_literal, operator_at, operator_number};
ghost use Rattle.strips.specs.Steps.{Lacks, done, holds_after, is_literal, makes, needs_hold, takes_both};

use crate::grounding::{Arguments, argument_fits};
use model::fact::{Literal, Sign};
use model::picture::Picture;
use plants::actions::ActionTable;
use plants::literal::LiftedLiteral;
use plants::operator::Operator;

// A move of an action table: its number, and its operator, which takes both its arguments.
#[derive(Clone, Copy)]
pub(crate) struct Move<'a> {
    table: &'a ActionTable,
    number: u16,
    operator: &'a Operator,
    ghost exists: { operator_number number < length table.now.operators },
    ghost takes: { takes_both table.now number ≡ true },
    ghost found: { operator.now ≡ operator_at table.now number },
}

// Why a number is that of no move: there is no such operator, or it does not take its first or its second argument.
#[derive(Debug, Clone, Copy, PartialEq, Eq)]
pub(crate) enum NoMove {
    Operator,
    First,
    Second,
}

impl<'a> Move<'a> {
    // The move that has a number.
    // Always inline: the search for the next allowed move makes one for each number that it tries.
    #[inline(always)]
    pub(crate) fn new(table: &'a ActionTable, number: u16) -> Result<Move<'a>, NoMove>
        ensures { MatchResult result (λ m. (m.table.now ≡ table.now) × (m.number ≡ number)) (Lacks table.now number) }
    {
        let operators = table.operators.as_slice();
        let operator = operators
            .get(usize::from(number / 256))
            .ok_or(NoMove::Operator)?;
        let objects = table.vocabulary.objects;
        let arguments = Arguments::of(number);
        if !argument_fits(objects, operator.parameters, 0, arguments.first) {
            return Err(NoMove::First);
        }
        if !argument_fits(objects, operator.parameters, 1, arguments.second) {
            return Err(NoMove::Second);
        }
        Ok(Move {
            table,
            number,
            operator,
        })
    }

    // The fact of a literal's ground atom, with the literal's sign.
    fn literal(&self, literal: LiftedLiteral) -> Literal
        requires { ground_fits self.now.table.now self.now.number literal ≡ true }
        ensures ground { result ≡ ground_literal self.now.table.now self.now.number literal }
        ensures below { result.fact.number < 512 }
    {
        let atom = Arguments::of(self.number).atom(literal.atom);
        Literal {
            sign: literal.sign,
            fact: self.table.vocabulary.fact(atom).unwrap(),
        }
    }

    // Whether its preconditions hold in a state.
    pub(crate) fn needs_hold(&self, state: &Picture) -> bool
        ensures { result ≡ needs_hold self.now.table.now state.now self.now.number }
    {
        let needs = self.operator.needs.as_slice();
        needs.iter().all(|l| self.literal(*l).holds(state))
    }

    // A state once the effects of one sign are done.
    // Said fact by fact, here and below, since a picture is known by the facts that hold in it.
    fn changed(&self, sign: Sign, state: Picture) -> Picture
        ensures { (f : ℕ) → holds result f ≡ done sign (makes self.now.table.now self.now.number sign f) (holds state f) }
    {
        let mut next = state;
        for e in self.operator.effects.as_slice() {
            write(&mut next, sign, self.literal(*e));
        }
        next
    }

    // A state once all effects are done.
    // Deleting comes first, so that a fact that is both deleted and added holds afterwards.
    pub(crate) fn apply(&self, state: Picture) -> Picture
        ensures { (f : ℕ) → holds result f ≡ holds_after self.now.table.now state self.now.number f }
    {
        self.changed(Sign::Positive, self.changed(Sign::Negative, state))
    }
}

// Does an effect if it has this sign: a positive one adds its fact, a negative one deletes it.
fn write(picture: &mut Picture, sign: Sign, effect: Literal)
    requires { effect.fact.number < 512 }
    ensures { (f : ℕ) → holds picture.new f ≡ done sign (is_literal sign f effect) (holds picture.old f) }
{
    match (sign, effect.sign) {
        (Sign::Negative, Sign::Negative) => {
            picture.remove(effect.fact).unwrap();
        }
        (Sign::Positive, Sign::Positive) => {
            picture.insert(effect.fact).unwrap();
        }
        _ => {}
    }
}
