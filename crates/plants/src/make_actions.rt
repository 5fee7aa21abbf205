ghost use Rattle.std.specs.Prelude.{◌≡◌};
ghost use Rattle.std.specs.List.{list_all};
ghost use Rattle.plants.specs.Actions.{ActionsMade};
ghost use Rattle.plants.specs.Lifted.{lifted_fits};
ghost use Rattle.plants.specs.Operators.{OperatorMade, OperatorOf, blank_operator, operator_fits, operator_head};
ghost use Rattle.std.proofs.Common.{rules};

use crate::actions::ActionTable;
use crate::literal::LiftedLiteral;
use crate::operator::Operator;
use codec::blank::Blank;
use codec::table::Table;
use model::vocabulary::Vocabulary;

// What stands in a place for an operator that is not in use has no parameters and no literals.
// By hand, since no default is derived for a type with an invariant.
impl Default for Operator {
    ghost is_default = { λ op. op ≡ blank_operator };

    fn default() -> Operator {
        Operator {
            parameters: 0,
            needs: Table::empty(),
            effects: Table::empty(),
        }
    }
}

impl Blank for Operator {
    ghost blank = { blank_operator };

    ghost only = { Prim.search rules };
}

impl Operator {
    // An operator with these literals: first its preconditions, of which there are so many, and the effects behind them.
    // None where there are more than 2 parameters, 8 preconditions or 8 effects, or fewer literals than preconditions.
    pub fn new(parameters: u8, preconditions: u8, literals: &[LiftedLiteral]) -> Option<Operator>
        ensures { OperatorMade parameters preconditions literals.now result }
    {
        let (needs, effects) = literals.split_at_checked(preconditions as usize)?;
        Operator::of(parameters, needs, effects)
    }

    // An operator with these preconditions and effects.
    // None where there are more than 2 parameters, 8 preconditions or 8 effects.
    pub fn of(
        parameters: u8,
        needs: &[LiftedLiteral],
        effects: &[LiftedLiteral],
    ) -> Option<Operator>
        ensures { OperatorOf parameters needs.now effects.now result }
    {
        if parameters > 2 {
            return None;
        }
        Some(Operator {
            parameters,
            needs: Table::new(needs)?,
            effects: Table::new(effects)?,
        })
    }

    // Its first bytes in a record: how many parameters, preconditions and effects it has.
    pub fn head(&self) -> [u8; 3]
        ensures { result ≡ operator_head self.now }
    {
        let (needs, effects) = (self.needs.len() as u8, self.effects.len() as u8);
        [self.parameters, needs, effects]
    }

    // Whether a vocabulary has the atoms of all its literals.
    fn fits(&self, vocabulary: &Vocabulary) -> bool
        ensures { result ≡ operator_fits vocabulary.now self.now }
    {
        has_all(vocabulary, self.parameters, self.needs.as_slice())
            && has_all(vocabulary, self.parameters, self.effects.as_slice())
    }
}

// Whether a vocabulary has the atoms of all these literals, with some parameters at hand.
fn has_all(vocabulary: &Vocabulary, parameters: u8, literals: &[LiftedLiteral]) -> bool
    ensures { result ≡ list_all (lifted_fits vocabulary.now parameters) literals.now }
{
    literals.iter().all(|l| vocabulary.has(parameters, l.atom))
}

impl ActionTable {
    // A table of these operators, in their order.
    // None where there are more than 16, or a literal's atom is none of the vocabulary.
    pub fn new(vocabulary: Vocabulary, operators: &[Operator]) -> Option<ActionTable>
        ensures { ActionsMade vocabulary operators.now result }
    {
        let table = Table::new(operators)?;
        if !all_fit(&vocabulary, operators) {
            return None;
        }
        Some(ActionTable {
            vocabulary,
            operators: table,
        })
    }
}

// Whether a vocabulary has the atoms of all literals of these operators.
fn all_fit(vocabulary: &Vocabulary, operators: &[Operator]) -> bool
    ensures { result ≡ list_all (operator_fits vocabulary.now) operators.now }
{
    operators.iter().all(|op| op.fits(vocabulary))
}
