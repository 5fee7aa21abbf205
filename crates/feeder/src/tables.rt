use books::chart::Chart;
use books::formula::FormulaTable;
use plants::actions::ActionTable;
use plants::network::Network;

// The plant of a feeder.
// A type apart from the rules, so that no book can stand for a plant.
#[derive(Clone, Copy)]
pub enum PlantTable {
    Actions(ActionTable),
    Network(Network),
}

// The rules of a feeder.
// A type apart from the plant, so that no plant can stand for a book.
#[derive(Clone, Copy)]
pub enum RuleTable {
    Formula(FormulaTable),
    Chart(Chart),
}
