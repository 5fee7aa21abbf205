ghost use Rattle.std.specs.Prelude.{◌≡◌};
ghost use Rattle.std.specs.List.{list_all};
ghost use Rattle.books.specs.Charts.{ChartMade};
ghost use Rattle.books.specs.Lines.{line_fits};

use crate::chart::Chart;
use crate::line::Line;
use codec::table::Table;
use model::vocabulary::Vocabulary;

impl Chart {
    // The chart over a vocabulary that has these lines. None where they break a rule.
    pub fn new(vocabulary: Vocabulary, lines: &[Line]) -> Option<Chart>
        ensures { ChartMade vocabulary lines.now result }
    {
        let table = Table::new(lines)?;
        if !lines_fit(lines, vocabulary.facts()) {
            return None;
        }
        Some(Chart {
            vocabulary,
            lines: table,
        })
    }
}

// Whether every line fits.
fn lines_fit(lines: &[Line], facts: u16) -> bool
    ensures { result ≡ list_all (line_fits facts) lines.now }
{
    lines.iter().all(|line| line.fits(facts))
}
