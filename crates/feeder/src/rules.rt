ghost use Rattle.std.specs.Prelude.{◌≡◌};
ghost use Rattle.feeder.specs.declared.header.BookKind.TheVariants as kind;
ghost use Rattle.feeder.specs.Tables.{rule_bytes};
ghost use Rattle.feeder.specs.Verdicts.{HasRules, PartRead, Passed, Step, SuitRules};

use crate::header::BookKind;
use crate::reading::Reading;
use crate::refusal::ReadRefusal;
use crate::tables::RuleTable;
use books::chart::Chart;
use books::formula::FormulaTable;
use books::line::Line;
use books::node::Node;
use codec::list::decode_table;
use codec::table::Table;

// One function for each kind of rules: the record says which, and each builds a table of its own.
impl Reading<'_> {
    // The formula whose nodes are these bytes.
    fn formula_of(&self, bytes: &[u8]) -> Option<RuleTable>
        requires { self.now.header.book ≡ kind.Formula }
        ensures { PartRead (SuitRules self.now.header self.now.vocabulary) rule_bytes bytes.now result }
    {
        let nodes: Table<Node, 120> = decode_table(bytes)?;
        let formula = FormulaTable::new(self.vocabulary, nodes.as_slice())?;
        Some(RuleTable::Formula(formula))
    }

    // The chart whose lines are these bytes.
    fn chart_of(&self, bytes: &[u8]) -> Option<RuleTable>
        requires { self.now.header.book ≡ kind.Chart }
        ensures { PartRead (SuitRules self.now.header self.now.vocabulary) rule_bytes bytes.now result }
    {
        let lines: Table<Line, 120> = decode_table(bytes)?;
        let chart = Chart::new(self.vocabulary, lines.as_slice())?;
        Some(RuleTable::Chart(chart))
    }

    // The rules of the header's kind that have these bytes.
    fn rules_of(&self, bytes: &[u8]) -> Option<RuleTable>
        ensures { PartRead (SuitRules self.now.header self.now.vocabulary) rule_bytes bytes.now result }
    {
        // the record says which; each arm reads a table of its own
        match self.header.book {
            BookKind::Formula => self.formula_of(bytes),
            BookKind::Chart => self.chart_of(bytes),
        }
    }

    // The rules: the ninth check.
    pub(crate) fn rules(&self) -> Result<RuleTable, ReadRefusal>
        requires { Passed 9 self.now.bytes.now }
        ensures { Step self.now.bytes.now (HasRules self.now.bytes.now self.now.header self.now.vocabulary) 10 result }
    {
        let bytes = &self.bytes[self.layout.rules..];
        self.rules_of(bytes).ok_or(ReadRefusal::Rules)
    }
}
