ghost use Rattle.ltl.specs.Laws.{ProgressionSound};

// Progression is sound: a formula holds at a position of a run exactly when what is left of it after the picture there
// holds at the next position. The contract is the theorem; nothing is done and nothing answered.
pub fn progression_is_sound()
    ensures { ProgressionSound }
{}
