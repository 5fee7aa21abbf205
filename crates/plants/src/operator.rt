ghost use Rattle.std.specs.Prelude.{◌≤◌, length};

use crate::literal::LiftedLiteral;
use codec::table::Table;

// An operator of an action table: how many parameters it has, what must hold before it, and what it makes hold or not.
#[derive(Clone, Copy)]
pub struct Operator {
    pub parameters: u8,
    pub needs: Table<LiftedLiteral, 8>,
    pub effects: Table<LiftedLiteral, 8>,
    ghost narrow: { parameters ≤ 2 },
    // the two tables' own limits once more, since contracts see of a table only the list of its values
    ghost before: { length needs ≤ 8 },
    ghost after: { length effects ≤ 8 },
}
