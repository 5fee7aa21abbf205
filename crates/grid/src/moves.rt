ghost use Rattle.std.specs.Prelude.{◌≡◌, ◌<◌, Decides};
ghost use Rattle.grid.specs.Actions.{acted, argument, changes, network_allowed, network_next};
ghost use Rattle.grid.specs.Laws.{CanMove, Possible, Stepped};
ghost use Rattle.grid.specs.Shown.{network_shown};
ghost use Rattle.grid.specs.States.{first_state};
ghost use Rattle.std.proofs.Common.{rules};

use crate::action::Action;
use crate::plant::NetworkPlant;
use crate::state::NetworkState;
use model::picture::Picture;
use model::plant::Plant;

impl NetworkState {
    // Does an action.
    fn act(&mut self, action: Action)
        requires { argument action < 16 }
        ensures { self.new ≡ acted self.old action }
    {
        match action {
            Action::Open(a) => self.put_switch(a, false),
            Action::Close(a) => self.put_switch(a, true),
            Action::Earth(x) => self.put_earth(x, true),
            Action::Lift(x) => self.put_earth(x, false),
        }
    }
}

impl NetworkPlant {
    // Whether an action is possible in a state: its switch or section exists, and the action would change it.
    pub fn changes(&self, state: &NetworkState, action: Action) -> bool
        ensures same { result ≡ changes self.now.network state.now action }
        ensures law { Decides result (Possible self.now.network state.now action) }
    {
        let switches = self.network.switches.len() as u8;
        let sections = self.network.vocabulary.objects;
        match action {
            Action::Open(a) => a < switches && state.is_closed(a),
            Action::Close(a) => a < switches && !state.is_closed(a),
            Action::Earth(x) => x < sections && !state.earths.has(x),
            Action::Lift(x) => x < sections && state.earths.has(x),
        }
    }

    // Whether a move is allowed in a state: it is the number of an action that is possible.
    #[tactic(auto, unfolding(crate::specs::Actions::network_allowed))]
    pub fn allows(&self, state: &NetworkState, number: u16) -> bool
        ensures same { result ≡ network_allowed self.now.network state.now number }
        ensures law { Decides result (CanMove self.now.network state.now number) }
    {
        Action::of(number).is_some_and(|action| self.changes(state, action))
    }

    // The state after a move: what its action says is changed, and where it is not allowed nothing is.
    #[tactic(auto, using(crate::proofs::Acting::next_law), unfolding(crate::specs::Actions::network_allowed, crate::specs::Actions::network_next))]
    pub fn step(&self, state: &NetworkState, number: u16) -> NetworkState
        ensures next { result ≡ network_next self.now.network state.now number }
        ensures law { Stepped self.now.network state.now number result }
    {
        let mut after = *state;
        if let Some(action) = Action::of(number) {
            if self.changes(state, action) {
                after.act(action);
            }
        }
        after
    }
}

impl Plant for NetworkPlant {
    type State = NetworkState;

    ghost first = { λ p. first_state p.network p.first };

    ghost shown = { λ p s. network_shown p.network s };

    ghost allowed = { λ p s m. network_allowed p.network s m };

    ghost next = { λ p s m. network_next p.network s m };

    ghost idle = { unfold network_allowed network_next in Prim.search rules };

    ghost numbered = { unfold network_allowed in Prim.search rules };

    fn first_state(&self) -> NetworkState {
        self.start()
    }

    fn picture(&self, state: &NetworkState) -> Picture {
        self.draw(state)
    }

    // Only each sixteenth number can be a move, and none from 1024 on.
    fn allowed_from(&self, state: &NetworkState, from: u16) -> Option<u16> {
        (from.div_ceil(16)..64)
            .map(|place| place * 16)
            .find(|number| self.allows(state, *number))
    }

    fn after(&self, state: &NetworkState, number: u16) -> NetworkState {
        self.step(state, number)
    }
}
