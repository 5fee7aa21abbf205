ghost use Rattle.std.specs.Prelude.{◌≡◌, ℕ, ◌<◌, Bool, true, false};
ghost use Rattle.model.specs.Moves.{lowest_move};
ghost use Rattle.model.specs.declared.picture.Picture.{Picture};

use crate::picture::Picture;

// A plant: what can be switched, as a transition system. It has a first state; each state has a picture (the facts that
// hold in it) and its allowed moves, and each move leads to a state. Moves are numbered 0 to 4095. The ghost members are its meaning; every implementation defines them by its own tables, and the contracts of
// the four questions say that the answers are those defined. No question is refused, and none changes anything.
pub trait Plant {
    // Where a plant stands. Whoever plans only stores states and hands them back.
    type State: Copy;

    // the state at the start
    ghost first: { Self → Self.State };

    // the picture of a state
    ghost shown: { Self → Self.State → Picture };

    // whether a move is allowed in a state
    ghost allowed: { Self → Self.State → ℕ → Bool };

    // the state after a move
    ghost next: { Self → Self.State → ℕ → Self.State };

    // The state at the start.
    fn first_state(&self) -> Self::State
        ensures { result ≡ first self.now };

    // The picture of a state.
    fn picture(&self, state: &Self::State) -> Picture
        ensures { result ≡ shown self.now state.now };

    // The lowest move from a number on that is allowed in a state, if there is one.
    fn allowed_from(&self, state: &Self::State, from: u16) -> Option<u16>
        ensures { result ≡ lowest_move (allowed self.now state.now) from };

    // The state after a move; the same state where the move is not allowed.
    fn after(&self, state: &Self::State, number: u16) -> Self::State
        ensures { result ≡ next self.now state.now number };

    // where a move is not allowed, the state stays the same
    ghost idle: { (p : Self) (s : Self.State) (m : ℕ) → allowed p s m ≡ false → next p s m ≡ s };

    // only numbers below 4096 are moves
    ghost numbered: { (p : Self) (s : Self.State) (m : ℕ) → allowed p s m ≡ true → m < 4096 };
}
