ghost use Rattle.std.specs.Prelude.{◌≡◌, Bool, true, ◌==◌};
ghost use Rattle.charts.specs.Steps.{Permits, rests, step_after};
ghost use Rattle.charts.specs.Staying.{taken_in, rests_decided, broken_none};
ghost use Rattle.std.proofs.lemmas.Bool.{eqb-true};

use books::chart::Chart;
use books::line::BROKEN;
use model::book::Book;
use model::picture::Picture;

// How many steps there are.
const STEPS: u8 = BROKEN + 1;

// A step of a chart.
// By its number, as a record has it, so that lines and callers name steps alike, the broken one too.
#[derive(Debug, Clone, Copy, PartialEq, Eq)]
pub struct Step {
    pub number: u8,
}

// A chart as a rule book.
#[derive(Clone, Copy)]
pub struct ChartBook {
    pub chart: Chart,
}

impl ChartBook {
    // The step after a picture: of the lines from the step, the first whose literal holds is followed. Where none holds,
    // the step stays. Steps go in and out by their numbers, as lines have them.
    #[tactic(auto, unfolding(crate::specs::Steps::step_after))]
    pub fn follow(&self, step: u8, picture: &Picture) -> u8
        ensures { result ≡ step_after self.now.chart step picture.now }
    {
        let mut lines = self.chart.lines.as_slice().iter();
        // the loop yields the next step by `break`: a form asked for by name (docs/DECISIONS.md)
        loop {
            let Some(line) = lines.next() else {
                break step;
            };
            if line.from == step && line.literal.holds(picture) {
                break line.to;
            }
        }
    }

    // Whether a step, by its number, is and stays below the broken one while a picture stays.
    // After as many turns as there are steps, they go round, so nothing new can come.
    #[tactic(auto, unfolding(crate::specs::Steps::stays))]
    pub fn holds_out(&self, step: u8, picture: &Picture) -> bool
        ensures { result ≡ rests self.now.chart step picture.now }
    {
        let mut at = step;
        // so many turns, and nothing to go over: each begins at the step that the one before led to
        for _turn in 0..STEPS {
            if at >= BROKEN {
                return false;
            }
            at = self.follow(at, picture);
        }
        at < BROKEN
    }
}

impl Book for ChartBook {
    type Label = Step;

    ghost first = { λ _. record { number = 0 } };

    ghost next = { λ b l q. record { number = step_after b.chart l.number q } };

    ghost permits = { λ b l q qs. Permits b.chart l.number q qs };

    ghost resting = { λ b l q. rests b.chart l.number q };

    ghost dead = { λ _ l. (l.number == 16) };

    ghost taken = { λ b seen q r rs h. taken_in b.chart _ q r rs };

    ghost rested = { λ b seen q h. rests_decided b.chart q _ };

    ghost lost = { λ b seen q qs h e p. broken_none b.chart _ q qs (eqb-true _ 16 e) p };

    fn first_label(&self) -> Step {
        Step { number: 0 }
    }

    fn label_after(&self, label: &Step, picture: &Picture) -> Step {
        Step {
            number: self.follow(label.number, picture),
        }
    }

    fn rests(&self, label: &Step, picture: &Picture) -> bool {
        self.holds_out(label.number, picture)
    }

    fn is_dead(&self, label: &Step) -> bool {
        *label == Step { number: BROKEN }
    }
}
