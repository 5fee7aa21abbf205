ghost use Rattle.std.specs.Prelude.{◌≡◌, Decides};
ghost use Rattle.model.specs.Ascents.{Ascending, literal_facts};
ghost use Rattle.model.specs.Goals.{GoalMade, goal_holds, literal_holds};

use crate::fact::{Literal, Sign};
use crate::goal::Goal;
use crate::picture::Picture;
use codec::table::Table;

impl Literal {
    // Whether it holds in a picture.
    pub fn holds(self, picture: &Picture) -> bool
        ensures { result ≡ literal_holds picture.now self }
    {
        match self.sign {
            Sign::Negative => !picture.holds(self.fact),
            Sign::Positive => picture.holds(self.fact),
        }
    }
}

impl Goal {
    // The goal of just these literals.
    // None where there are more than 64, or their facts do not ascend.
    pub fn new(literals: &[Literal]) -> Option<Goal>
        ensures { GoalMade literals.now result }
    {
        let table = Table::new(literals)?;
        if !ascend(literals) {
            return None;
        }
        Some(Goal { literals: table })
    }

    // Whether it holds in a picture: each of its literals does.
    pub fn holds(&self, picture: &Picture) -> bool
        ensures { result ≡ goal_holds self.now picture.now }
    {
        self.literals.as_slice().iter().all(|l| l.holds(picture))
    }
}

// Whether the facts of some literals ascend.
fn ascend(literals: &[Literal]) -> bool
    ensures { Decides result (Ascending (literal_facts literals.now)) }
{
    literals.is_sorted_by(|a, b| a.fact < b.fact)
}
