// A plant in words.
ghost use Rattle.std.specs.Prelude.{◌≡◌};
ghost use Rattle.inspect.specs.Names.{parameter_names};

use crate::amount::Amount;
use crate::words::{InWords, Predicate};
use feeder::tables::PlantTable;
use grid::sections::Sections;
use plants::actions::ActionTable;
use plants::network::{Network, Switch};
use plants::operator::Operator;
use std::fmt;

impl fmt::Display for InWords<'_, PlantTable> {
    fn fmt<W: fmt::Write>(&self, f: &mut fmt::Formatter<W>) -> fmt::Result {
        let plant = self.of;
        match plant {
            PlantTable::Actions(table) => write!(f, "{}", self.words.say(table)),
            PlantTable::Network(network) => write!(f, "{}", self.words.say(network)),
        }
    }
}

// A network is its size, its switches and the sections that are fed.
impl fmt::Display for InWords<'_, Network> {
    fn fmt<W: fmt::Write>(&self, f: &mut fmt::Formatter<W>) -> fmt::Result {
        let network = self.of;
        let switches = network.switches.as_slice();
        let sections = Amount(usize::from(network.vocabulary.objects), "section");
        writeln!(f, "network of {sections}")?;
        if switches.is_empty() {
            writeln!(f, "switches: none")?;
        } else {
            writeln!(f, "switches: {}", switches.len())?;
        }
        write_switches(f, switches)?;
        write!(f, "fed: ")?;
        write_fed(f, network)?;
        writeln!(f)
    }
}

// Writes a line for each switch.
fn write_switches<W: fmt::Write>(f: &mut fmt::Formatter<W>, switches: &[Switch]) -> fmt::Result {
    for (k, switch) in switches.iter().enumerate() {
        let from = switch.from;
        let to = switch.to;
        writeln!(f, "  switch {k} joins sections {from} and {to}")?;
    }
    Ok(())
}

// Writes the sections of a network that are fed.
// Not by `Words::list`, which takes a slice: sections are counted and not kept.
fn write_fed<W: fmt::Write>(f: &mut fmt::Formatter<W>, network: &Network) -> fmt::Result {
    let fed = Sections { bits: network.fed };
    let mut sections = (0..network.vocabulary.objects).filter(|s| fed.has(*s));
    let Some(first) = sections.next() else {
        return f.write_str("no section");
    };
    write!(f, "section {first}")?;
    for section in sections {
        write!(f, ", section {section}")?;
    }
    Ok(())
}

// An action table is its objects, its predicates and its operators.
impl fmt::Display for InWords<'_, ActionTable> {
    fn fmt<W: fmt::Write>(&self, f: &mut fmt::Formatter<W>) -> fmt::Result {
        let table = self.of;
        let operators = table.operators.as_slice();
        let objects = Amount(usize::from(table.vocabulary.objects), "object");
        write!(f, "action table over {objects}\npredicates: ")?;
        self.write_predicates(f)?;
        writeln!(f)?;
        if operators.is_empty() {
            return writeln!(f, "operators: none");
        }
        self.write_operators(f, operators)
    }
}

// The parameters of an operator that has so many.
// Three fixed texts, printed as they stand: a list with commas, or a type to display, would be longer.
fn parameters(count: u8) -> &'static str
    ensures { result.now ≡ parameter_names count }
{
    match count {
        0 => "no parameters",
        1 => "x0",
        _ => "x0, x1",
    }
}

impl InWords<'_, ActionTable> {
    // Writes the predicates, each with the number of objects that it takes.
    // Not by `Words::list`, which takes a slice: predicates are counted and not kept, only their arities are.
    fn write_predicates<W: fmt::Write>(&self, f: &mut fmt::Formatter<W>) -> fmt::Result {
        let arities = self.of.vocabulary.arities.as_slice();
        for (p, arity) in (0u8..).zip(arities) {
            if p > 0 {
                f.write_str(", ")?;
            }
            let objects = Amount(*arity as usize, "object");
            write!(f, "{} of {objects}", self.words.say(&Predicate(p)))?;
        }
        Ok(())
    }

    // Writes the lines of each operator: its parameters, what it needs and what it makes.
    fn write_operators<W: fmt::Write>(
        &self,
        f: &mut fmt::Formatter<W>,
        operators: &[Operator],
    ) -> fmt::Result {
        for (k, operator) in operators.iter().enumerate() {
            let parameters = parameters(operator.parameters);
            writeln!(f, "operator {k} ({parameters})")?;
            let needed = self.words.list(operator.needs.as_slice(), "nothing");
            writeln!(f, "  needs {needed}")?;
            let made = self.words.list(operator.effects.as_slice(), "nothing");
            writeln!(f, "  makes {made}")?;
        }
        Ok(())
    }
}
