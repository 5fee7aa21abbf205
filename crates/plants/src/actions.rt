ghost use Rattle.std.specs.Prelude.{◌≡◌, ◌≤◌, true, length};
ghost use Rattle.std.specs.List.{list_all};
ghost use Rattle.plants.specs.Operators.{operator_fits};

use crate::operator::Operator;
use codec::table::Table;
use model::vocabulary::Vocabulary;

// A plant given by its operators, over the objects and predicates of a vocabulary.
#[derive(Clone, Copy)]
pub struct ActionTable {
    pub vocabulary: Vocabulary,
    pub operators: Table<Operator, 16>,
    // the table's own limit once more, since contracts see of a table only the list of its values
    ghost few: { length operators ≤ 16 },
    ghost fits: { list_all (operator_fits vocabulary) operators ≡ true },
}
