ghost use Rattle.std.specs.Prelude.{◌≡◌, ◌<◌, ◌≤◌, Bool, true, List, [], ◌∷◌, ◌++◌, length, Decides};
ghost use Rattle.model.specs.Runs.{taking};
ghost use Rattle.model.specs.declared.picture.Picture.{Picture};

use crate::picture::Picture;

// A rule book: rules over time, as a monitor. A run is a list of one picture or more, the last of which goes on for ever.
// A label says what is left of the rules after the pictures taken in so far, and permits certain runs. The ghost members
// are the book's meaning; every implementation defines them by its own tables, and the contracts of the four questions
// say that the answers are those defined. No question is refused, and none changes anything.
// The laws speak of the labels that come about by taking in pictures from the first label, at most 24 of them.
pub trait Book {
    // What is left of the rules. Whoever plans only stores labels and hands them back.
    type Label: Copy;

    // the label before any picture
    ghost first: { Self → Self.Label };

    // the label after a picture
    ghost next: { Self → Self.Label → Picture → Self.Label };

    // whether a label permits the run of a picture and those of a list behind it
    ghost permits: { Self → Self.Label → Picture → List Picture → Type 0 };

    // whether the rules are kept if a picture comes and stays
    ghost resting: { Self → Self.Label → Picture → Bool };

    // whether the rules are known to be broken for good
    ghost dead: { Self → Self.Label → Bool };

    // The label before any picture.
    fn first_label(&self) -> Self::Label
        ensures { result ≡ first self.now };

    // The label after a picture.
    fn label_after(&self, label: &Self::Label, picture: &Picture) -> Self::Label
        ensures { result ≡ next self.now label.now picture.now };

    // Whether the rules are kept if a picture comes and stays.
    fn rests(&self, label: &Self::Label, picture: &Picture) -> bool
        ensures { result ≡ resting self.now label.now picture.now };

    // Whether the rules are known to be broken for good.
    fn is_dead(&self, label: &Self::Label) -> bool
        ensures { result ≡ dead self.now label.now };

    // with fewer than 24 pictures taken in, a picture and then a run are permitted just where the label after that
    // picture permits the run
    ghost taken: { (b : Self) (seen : List Picture) (q r : Picture) (rs : List Picture) → length seen < 24
        → (permits b (taking (next b) (first b) seen) q (r ∷ rs) → permits b (next b (taking (next b) (first b) seen) q) r rs)
        × (permits b (next b (taking (next b) (first b) seen) q) r rs → permits b (taking (next b) (first b) seen) q (r ∷ rs)) };

    // a label rests on a picture just where it permits the run of that picture alone
    ghost rested: { (b : Self) (seen : List Picture) (q : Picture) → length seen ≤ 24
        → Decides (resting b (taking (next b) (first b) seen) q) (permits b (taking (next b) (first b) seen) q []) };

    // a dead label permits no run
    ghost lost: { (b : Self) (seen : List Picture) (q : Picture) (qs : List Picture) → length seen ≤ 24
        → dead b (taking (next b) (first b) seen) ≡ true → permits b (taking (next b) (first b) seen) q qs → ⊥ };
}
