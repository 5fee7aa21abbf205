ghost use Rattle.std.specs.Prelude.{◌≤◌, length};
ghost use Rattle.model.specs.Ascents.{Ascending, literal_facts};

use crate::fact::Literal;
use codec::table::Table;

// A goal: at most 64 literals on different facts, all of which are wanted, in ascending order of their facts.
#[derive(Clone, Copy)]
pub struct Goal {
    pub literals: Table<Literal, 64>,
    // the table's own limit once more, since contracts see of a table only the list of its values
    ghost few: { length literals ≤ 64 },
    ghost rises: { Ascending (literal_facts literals) },
}
