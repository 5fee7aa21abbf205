ghost use Rattle.std.specs.Prelude.{◌≡◌, true};
ghost use Rattle.std.specs.List.{flat_map, list_all};
ghost use Rattle.codec.specs.Writing.{Wrote};
ghost use Rattle.plants.specs.Operators.{operator_bytes};
ghost use Rattle.feeder.specs.Operators.{operator_holds};
ghost use Rattle.feeder.specs.Tables.{plant_bytes, rule_bytes};

use crate::tables::{PlantTable, RuleTable};
use codec::writer::Writer;
use plants::operator::Operator;

// The functions here write a part of a record behind what is written. None where there is no room for it.

// Writes an operator: its counts, then its preconditions, then its effects.
// It asks for literals that a record can hold, since a variant of an enum keeps no invariant.
fn put_operator(op: &Operator, writer: &mut Writer) -> Option<()>
    requires { operator_holds op.now ≡ true }
    ensures { Wrote writer.old (operator_bytes op.now) writer.new result }
{
    writer.put(&op.head())?;
    writer.put_all(op.needs.as_slice())?;
    writer.put_all(op.effects.as_slice())
}

// Writes some operators.
// It asks for operators that a record can hold, since a variant of an enum keeps no invariant.
fn put_operators(operators: &[Operator], writer: &mut Writer) -> Option<()>
    requires { list_all operator_holds operators.now ≡ true }
    ensures { Wrote writer.old (flat_map operator_bytes operators.now) writer.new result }
{
    for op in operators {
        put_operator(op, writer)?;
    }
    Some(())
}

// Writes a plant's table.
pub(crate) fn put_plant(plant: &PlantTable, writer: &mut Writer) -> Option<()>
    ensures { Wrote writer.old (plant_bytes plant.now) writer.new result }
{
    match plant {
        PlantTable::Actions(table) => put_operators(table.operators.as_slice(), writer),
        PlantTable::Network(network) => {
            writer.put_all(network.switches.as_slice())?;
            writer.put(&network.fed.to_be_bytes())
        }
    }
}

// Writes the rules.
pub(crate) fn put_rules(rules: &RuleTable, writer: &mut Writer) -> Option<()>
    ensures { Wrote writer.old (rule_bytes rules.now) writer.new result }
{
    match rules {
        RuleTable::Formula(table) => writer.put_all(table.nodes.as_slice()),
        RuleTable::Chart(chart) => writer.put_all(chart.lines.as_slice()),
    }
}
