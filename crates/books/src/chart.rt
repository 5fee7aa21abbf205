ghost use Rattle.std.specs.Prelude.{◌≡◌, ◌≤◌, true, length};
ghost use Rattle.std.specs.List.{list_all};
ghost use Rattle.model.specs.Vocabularies.{fact_total};
ghost use Rattle.books.specs.Lines.{line_fits};

use crate::line::Line;
use codec::table::Table;
use model::vocabulary::Vocabulary;

// A chart over a vocabulary: at most 120 lines, which lead from step to step.
#[derive(Clone, Copy)]
pub struct Chart {
    pub vocabulary: Vocabulary,
    pub lines: Table<Line, 120>,
    // the table's own limit once more, since contracts see of a table only the list of its values
    ghost few: { length lines ≤ 120 },
    ghost fits: { list_all (line_fits (fact_total vocabulary)) lines ≡ true },
}
