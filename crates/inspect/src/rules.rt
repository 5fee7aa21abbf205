// Rules in words.
ghost use Rattle.std.specs.Prelude.{◌≡◌, ◌<◌, length, Some};
ghost use Rattle.std.specs.Fmt.{WritesOnOk};
ghost use Rattle.inspect.specs.Names.{word_of};
ghost use Rattle.inspect.specs.Formulas.{leaf_text, part_text, rules_text, table_text};

use crate::amount::Amount;
use crate::words::{InWords, Words};
use books::chart::Chart;
use books::formula::FormulaTable;
use books::line::{BROKEN, Line};
use books::node::Node;
use feeder::tables::RuleTable;
use std::fmt;
use std::fmt::Display;

impl fmt::Display for InWords<'_, RuleTable> {
    ghost output = { λ x. rules_text x.words.now x.of.now };

    fn fmt<W: fmt::Write>(&self, f: &mut fmt::Formatter<W>) -> fmt::Result {
        let rules = self.of;
        match rules {
            RuleTable::Formula(table) => {
                let nodes = Amount(table.nodes.len(), "node");
                let formula = self.words.say(table);
                writeln!(f, "rules: a formula of {nodes}\n  {formula}")
            }
            RuleTable::Chart(chart) => {
                let lines = Amount(chart.lines.len(), "line");
                writeln!(f, "rules: a chart of {lines}")?;
                for line in chart.lines.as_slice() {
                    self.words.say(line).fmt(f)?;
                }
                Ok(())
            }
        }
    }
}

// The word of a node, with the spaces between it and the node's parts. Nodes that hold an atom or two terms have none.
// A fixed text and no `Display`: it is printed as it stands, between other things.
fn word(node: Node) -> &'static str
    ensures { result.now ≡ word_of node }
{
    match node {
        Node::True => "TRUE",
        Node::False => "FALSE",
        Node::Atom(_) | Node::Goal(_) | Node::Same(_, _) => "",
        Node::Not(_) => "NOT ",
        Node::And(_, _) => " AND ",
        Node::Or(_, _) => " OR ",
        Node::Next(_) => "NEXT ",
        Node::Eventually(_) => "EVENTUALLY ",
        Node::Always(_) => "ALWAYS ",
        Node::Until(_, _) => " UNTIL ",
        Node::ForAll(_) => "FORALL ",
        Node::Exists(_) => "EXISTS ",
    }
}

// Writes a node that has no parts.
fn write_leaf<W: fmt::Write>(f: &mut fmt::Formatter<W>, words: &Words, node: Node) -> fmt::Result
    ensures { WritesOnOk W.write_str_gives f.old result (leaf_text words.now node) f.new }
{
    match node {
        Node::Atom(atom) => words.say(&atom).fmt(f),
        Node::Goal(atom) => write!(f, "GOAL({})", words.say(&atom)),
        Node::Same(s, t) => {
            words.say(&s).fmt(f)?;
            f.write_str(" = ")?;
            words.say(&t).fmt(f)
        }
        _ => f.write_str(word(node)),
    }
}

impl InWords<'_, FormulaTable> {
    // Writes the formula of a node, so that it reads back in one way only: AND, OR and UNTIL stand between their parts,
    // with brackets around the whole, and every other word stands before its parts. So it is seen where each part ends,
    // and the body of a quantifier needs no brackets of its own.
    fn write_part<W: fmt::Write>(&self, f: &mut fmt::Formatter<W>, i: u8) -> fmt::Result
        requires { i < length self.now.of.now.nodes }
        ensures { WritesOnOk W.write_str_gives f.old result (part_text self.now.words.now self.now.of.now i) f.new }
    {
        let Some(node) = self.of.node(i) else {
            unreachable!()
        };
        match node {
            Node::True | Node::False | Node::Atom(_) | Node::Goal(_) | Node::Same(_, _) => {
                write_leaf(f, self.words, node)
            }
            Node::Not(a) | Node::Next(a) | Node::Eventually(a) | Node::Always(a) => {
                f.write_str(word(node))?;
                self.write_part(f, a)
            }
            Node::And(a, b) | Node::Or(a, b) | Node::Until(a, b) => {
                f.write_str("(")?;
                self.write_part(f, a)?;
                f.write_str(word(node))?;
                self.write_part(f, b)?;
                f.write_str(")")
            }
            Node::ForAll(q) | Node::Exists(q) => {
                write!(f, "{}x{} IN ", word(node), q.variable)?;
                self.write_part(f, q.range)?;
                f.write_str(": ")?;
                self.write_part(f, q.body)
            }
        }
    }
}

impl fmt::Display for InWords<'_, FormulaTable> {
    ghost output = { λ x. Some (table_text x.words.now x.of.now) };

    fn fmt<W: fmt::Write>(&self, f: &mut fmt::Formatter<W>) -> fmt::Result {
        self.write_part(f, self.of.nodes.len() as u8 - 1)
    }
}

// The line of the step that is broken says so.
impl fmt::Display for InWords<'_, Line> {
    fn fmt<W: fmt::Write>(&self, f: &mut fmt::Formatter<W>) -> fmt::Result {
        let Line { from, literal, to } = *self.of;
        let broken = if to == BROKEN { " (broken)" } else { "" };
        write!(f, "  from step {from} to step {to}{broken} where ")?;
        self.words.say(&literal).fmt(f)?;
        f.write_str("\n")
    }
}
