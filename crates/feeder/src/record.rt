ghost use Rattle.std.specs.Prelude.{◌≡◌, ◌≤◌, true};
ghost use Rattle.std.specs.List.{list_all};
ghost use Rattle.model.specs.Pictures.{members};
ghost use Rattle.model.specs.Vocabularies.{fact_total};
ghost use Rattle.feeder.specs.Tables.{fact_below, may_be_first, plant_kind, plant_rows, plant_words, rule_words, word_code};

use crate::tables::{PlantTable, RuleTable};
use model::goal::Goal;
use model::picture::Picture;

// A feeder: what a record says, with every rule of the format kept by its type.
#[derive(Clone, Copy)]
pub struct Feeder {
    pub plant: PlantTable,
    // the facts that hold at the start
    pub first: Picture,
    pub goal: Goal,
    pub rules: RuleTable,
    // how many moves an order may have
    pub limit: u8,
    // by numbers: an invariant may have one proof only, which an equation of numbers is known to have
    ghost agree: { word_code (rule_words rules) ≡ word_code (plant_words plant) },
    ghost start: { list_all (may_be_first (plant_kind plant) (fact_total (plant_words plant)) (plant_words plant).objects (plant_rows plant)) (members first) ≡ true },
    ghost wanted: { list_all (fact_below (fact_total (plant_words plant))) goal.literals ≡ true },
    ghost short: { limit ≤ 24 },
}
