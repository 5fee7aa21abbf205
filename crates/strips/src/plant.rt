ghost use Rattle.std.specs.Prelude.{◌≡◌, Decides, IfSome, is_some};
ghost use Rattle.strips.specs.Laws.{Applicable, Numbered, Stepped};
ghost use Rattle.strips.specs.Steps.{action_allowed, action_next};
ghost use Rattle.strips.specs.Stepping.{next_idle, allowed_parts};
ghost use Rattle.std.proofs.Common.{arith};

use crate::moves::{Move, NoMove};
use model::picture::Picture;
use model::plant::Plant;
use plants::actions::ActionTable;

// An action table with the facts that hold at the start.
// A type for each kind of plant, since each answers the questions of a plant by its own table.
#[derive(Clone, Copy)]
pub struct ActionPlant {
    pub table: ActionTable,
    pub first: Picture,
}

impl ActionPlant {
    // The move that has a number, if it is allowed in a state: all its preconditions hold.
    fn allowed_move(&self, state: &Picture, number: u16) -> Option<Move<'_>>
        ensures allowed { is_some result ≡ action_allowed self.now.table state.now number }
        ensures found { IfSome result (λ m. (m.table.now ≡ self.now.table) × (m.number ≡ number)) }
    {
        Move::new(&self.table, number)
            .ok()
            .filter(|m| m.needs_hold(state))
    }

    // Whether a move is allowed in a state: its operator exists and takes its arguments, and all preconditions hold.
    pub fn applies(&self, state: &Picture, number: u16) -> bool
        ensures allowed { result ≡ action_allowed self.now.table state.now number }
        ensures parts { Numbered number }
        ensures law { Decides result (Applicable self.now.table state.now number) }
    {
        self.allowed_move(state, number).is_some()
    }

    // The state after a move; the same state where the move is not allowed.
    pub fn step(&self, state: &Picture, number: u16) -> Picture
        ensures next { result ≡ action_next self.now.table state.now number }
        ensures law { Stepped self.now.table state.now number result }
    {
        match self.allowed_move(state, number) {
            Some(m) => m.apply(*state),
            None => *state,
        }
    }
}

impl Plant for ActionPlant {
    type State = Picture;

    ghost first = { λ p. p.first };

    ghost shown = { λ p s. s };

    ghost allowed = { λ p s m. action_allowed p.table s m };

    ghost next = { λ p s m. action_next p.table s m };

    // a move that is not allowed changes nothing
    ghost idle = { λ p s m e. next_idle p.table s m e };

    // moves are below 4096, since there are at most 16 operators
    ghost numbered = { λ p s m e. let h = (allowed_parts p.table s m e).0 in omega (arith, p.table.few) };

    fn first_state(&self) -> Picture {
        self.first
    }

    fn picture(&self, state: &Picture) -> Picture {
        *state
    }

    // Where an argument does not fit, no larger one does: the search goes on at the next operator or first argument.
    // A loop is plainest: what a number lacks says at which number to go on, and no range or chain counts those.
    #[tactic(auto, using(crate::proofs::Skipping::skipping))]
    fn allowed_from(&self, state: &Picture, from: u16) -> Option<u16> {
        let mut number = from;
        loop {
            number = match Move::new(&self.table, number) {
                Ok(m) if m.needs_hold(state) => return Some(number),
                Ok(_) => number + 1,
                Err(NoMove::Operator) => return None,
                Err(NoMove::First) => (number / 256 + 1) * 256,
                Err(NoMove::Second) => (number / 16 + 1) * 16,
            };
        }
    }

    fn after(&self, state: &Picture, number: u16) -> Picture {
        self.step(state, number)
    }
}
