ghost use Rattle.std.specs.Prelude.{◌≡◌, ◌*◌, ◌≤◌, length};
ghost use Rattle.codec.specs.Codes.{answered, held};
ghost use Rattle.codec.specs.Writing.{Wrote};
ghost use Rattle.plants.specs.Operators.{operator_bytes};
ghost use Rattle.std.specs.List.{flat_map};
ghost use Rattle.feeder.specs.Records.{encode, header_of};
ghost use Rattle.feeder.specs.Tables.{plant_bytes, plant_kind, plant_rows, plant_words, rule_kind, rule_rows};

use crate::header::{BookKind, HEADER, Header, PlantKind};
use crate::layout::{FACT, FED, LITERAL, SWITCH, operator_size, rules_bytes};
use crate::put::{put_plant, put_rules};
use crate::record::Feeder;
use crate::refusal::WriteRefusal;
use crate::tables::{PlantTable, RuleTable};
use codec::coded::Coded;
use codec::writer::Writer;
use model::vocabulary::Vocabulary;
use plants::operator::Operator;

// How many bytes the longest record has.
pub const LONGEST: usize = 2915;

// A match for each of the two enums: what their variants hold has no type in common.
impl PlantTable {
    // Its kind.
    // A method and no `From`: a table tells its kind among other things of itself.
    pub fn kind(&self) -> PlantKind
        ensures { result ≡ plant_kind self.now }
    {
        match self {
            PlantTable::Actions(_) => PlantKind::Actions,
            PlantTable::Network(_) => PlantKind::Network,
        }
    }

    // How many operators or switches it has.
    fn rows(&self) -> u8
        ensures { result ≡ plant_rows self.now }
    {
        match self {
            PlantTable::Actions(table) => table.operators.len() as u8,
            PlantTable::Network(network) => network.switches.len() as u8,
        }
    }

    // Its objects and predicates.
    pub fn vocabulary(&self) -> Vocabulary
        ensures { result ≡ plant_words self.now }
    {
        match self {
            PlantTable::Actions(table) => table.vocabulary,
            PlantTable::Network(network) => network.vocabulary,
        }
    }
}

// A match for each of the two enums: what their variants hold has no type in common.
impl RuleTable {
    // Their kind.
    // A method and no `From`: a table tells its kind among other things of itself.
    fn kind(&self) -> BookKind
        ensures { result ≡ rule_kind self.now }
    {
        match self {
            RuleTable::Formula(_) => BookKind::Formula,
            RuleTable::Chart(_) => BookKind::Chart,
        }
    }

    // How many nodes or lines they have.
    fn rows(&self) -> u8
        ensures { result ≡ rule_rows self.now }
    {
        match self {
            RuleTable::Formula(table) => table.nodes.len() as u8,
            RuleTable::Chart(chart) => chart.lines.len() as u8,
        }
    }
}

impl Feeder {
    // The header of its record.
    pub fn header(&self) -> Header
        ensures { result ≡ header_of self.now }
    {
        let vocabulary = self.plant.vocabulary();
        Header {
            plant: self.plant.kind(),
            objects: vocabulary.objects,
            predicates: vocabulary.arities.len() as u8,
            rows: self.plant.rows(),
            book: self.rules.kind(),
            rules: self.rules.rows(),
            goal: self.goal.literals.len() as u8,
            limit: self.limit,
            first: self.first.members().len() as u16,
        }
    }
}

// How many bytes an operator takes.
fn operator_length(op: &Operator) -> usize
    ensures size { result ≡ length (operator_bytes op.now) }
    ensures bound { result ≤ 67 }
{
    operator_size(op.needs.len() + op.effects.len())
}

// How many bytes a plant's table takes.
// Counted from the operators or switches that it has; the reader counts from bytes that may be no table.
fn plant_length(plant: &PlantTable) -> usize
    ensures size { result ≡ length (plant_bytes plant.now) }
    ensures bound { result ≤ 1072 }
{
    match plant {
        PlantTable::Actions(table) => {
            let operators = table.operators.as_slice();
            operators.iter().map(operator_length).sum()
        }
        PlantTable::Network(network) => SWITCH * network.switches.len() + FED,
    }
}

// How many bytes the record of a feeder has.
fn record_length(feeder: &Feeder) -> usize
    ensures size { result ≡ length (encode feeder.now) }
    ensures bound { result ≤ LONGEST }
{
    let header = feeder.header();
    let plant = plant_length(&feeder.plant);
    let facts = FACT * usize::from(header.first) + LITERAL * usize::from(header.goal);
    HEADER + usize::from(header.predicates) + plant + facts + rules_bytes(header.book, header.rules)
}

// Writes the record of a feeder behind what is written. None where there is no room for it.
fn put_record(feeder: &Feeder, writer: &mut Writer) -> Option<()>
    ensures { Wrote writer.old (encode feeder.now) writer.new result }
{
    writer.put(&feeder.header().encode())?;
    writer.put_all(feeder.plant.vocabulary().arities.as_slice())?;
    put_plant(&feeder.plant, writer)?;
    writer.put_all(feeder.first.members().as_slice())?;
    writer.put_all(feeder.goal.literals.as_slice())?;
    put_rules(&feeder.rules, writer)
}

// Writes the record of a feeder into a buffer and answers its length, which is at most LONGEST.
// Places behind the record keep what they held, and a buffer that is too short keeps all.
// The bound is said by its number: no change of the constant changes what is promised.
pub fn write(feeder: &Feeder, out: &mut [u8]) -> Result<usize, WriteRefusal>
    ensures answers { result ≡ answered WriteRefusal.Short (encode feeder.now) out.old }
    ensures after { out.new ≡ held (encode feeder.now) out.old }
    ensures bound { length (encode feeder.now) ≤ 2915 }
{
    if record_length(feeder) > out.len() {
        return Err(WriteRefusal::Short);
    }
    let mut writer = Writer { out, at: 0 };
    put_record(feeder, &mut writer).ok_or(WriteRefusal::Short)?;
    Ok(writer.at)
}
