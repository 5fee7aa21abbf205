ghost use Rattle.std.specs.Prelude.{◌≡◌};
ghost use Rattle.std.specs.List.{list_all};
ghost use Rattle.model.specs.Vocabularies.{fact_total};
ghost use Rattle.feeder.specs.Records.{goal_bytes, picture_bytes};
ghost use Rattle.feeder.specs.Tables.{fact_below, may_be_first};
ghost use Rattle.feeder.specs.Verdicts.{HasFirst, HasGoal, PartRead, Passed, Step, SuitFirst, SuitGoal};

use crate::header::PlantKind;
use crate::reading::Reading;
use crate::refusal::ReadRefusal;
use codec::list::decode_table;
use codec::table::Table;
use model::fact::{Fact, Literal};
use model::goal::Goal;
use model::picture::Picture;

impl Reading<'_> {
    // Whether a fact may be a first fact where there are so many in total: any of an action table's, and of a network's
    // the positions of its switches and the placed earths.
    fn may_be_first(&self, total: u16, fact: Fact) -> bool
        ensures { result ≡ may_be_first self.now.header.plant total self.now.header.objects self.now.header.rows fact.number }
    {
        let f = fact.number;
        let n = self.header.objects as u16;
        match self.header.plant {
            PlantKind::Actions => f < total,
            PlantKind::Network => f < self.header.rows as u16 || n <= f && f < n + n,
        }
    }

    // Whether all of some facts may be first facts.
    fn all_may_be_first(&self, facts: &[Fact]) -> bool
        ensures { result ≡ list_all (λ f. may_be_first self.now.header.plant (fact_total self.now.vocabulary) self.now.header.objects self.now.header.rows f.number) facts.now }
    {
        // counted once, and not for each fact
        let total = self.vocabulary.facts();
        facts.iter().all(|f| self.may_be_first(total, *f))
    }

    // The picture whose facts are these bytes.
    fn first_of(&self, bytes: &[u8]) -> Option<Picture>
        ensures { PartRead (SuitFirst self.now.header self.now.vocabulary) picture_bytes bytes.now result }
    {
        let facts: Table<Fact, 512> = decode_table(bytes)?;
        let picture = Picture::new(facts.as_slice())?;
        self.all_may_be_first(facts.as_slice()).then_some(picture)
    }

    // Whether all of some literals are on facts of the vocabulary.
    fn all_below(&self, literals: &[Literal]) -> bool
        ensures { result ≡ list_all (fact_below (fact_total self.now.vocabulary)) literals.now }
    {
        let total = self.vocabulary.facts();
        literals.iter().all(|l| l.fact.number < total)
    }

    // The goal whose literals are these bytes.
    fn goal_of(&self, bytes: &[u8]) -> Option<Goal>
        ensures { PartRead (SuitGoal self.now.vocabulary) goal_bytes bytes.now result }
    {
        let literals: Table<Literal, 64> = decode_table(bytes)?;
        let goal = Goal::new(literals.as_slice())?;
        self.all_below(literals.as_slice()).then_some(goal)
    }

    // The first facts: the seventh check.
    pub(crate) fn first(&self) -> Result<Picture, ReadRefusal>
        requires { Passed 7 self.now.bytes.now }
        ensures { Step self.now.bytes.now (HasFirst self.now.bytes.now self.now.header self.now.vocabulary) 8 result }
    {
        let bytes = &self.bytes[self.layout.facts..self.layout.goal];
        self.first_of(bytes).ok_or(ReadRefusal::FirstFacts)
    }

    // The goal: the eighth check.
    pub(crate) fn goal(&self) -> Result<Goal, ReadRefusal>
        requires { Passed 8 self.now.bytes.now }
        ensures { Step self.now.bytes.now (HasGoal self.now.bytes.now self.now.header self.now.vocabulary) 9 result }
    {
        let bytes = &self.bytes[self.layout.goal..self.layout.rules];
        self.goal_of(bytes).ok_or(ReadRefusal::Goal)
    }
}
