ghost use Rattle.std.specs.Prelude.{◌≡◌, ◌+◌, ◌*◌, length};
ghost use Rattle.feeder.specs.declared.header.PlantKind.TheVariants as kind;
ghost use Rattle.feeder.specs.Tables.{plant_bytes};
ghost use Rattle.feeder.specs.Verdicts.{HasPlant, PartRead, Passed, Step, SuitPlant};

use crate::header::PlantKind;
use crate::layout::{FED, SWITCH};
use crate::operators::operators_of;
use crate::reading::Reading;
use crate::refusal::ReadRefusal;
use crate::tables::PlantTable;
use codec::list::decode_table;
use codec::table::Table;
use plants::actions::ActionTable;
use plants::network::{Network, Switch};

// One function for each kind of plant: the record says which, and each builds a table of its own.
impl Reading<'_> {
    // The action table whose operators are these bytes.
    fn actions_of(&self, bytes: &[u8]) -> Option<PlantTable>
        requires { self.now.header.plant ≡ kind.Actions }
        ensures { PartRead (SuitPlant self.now.header self.now.vocabulary) plant_bytes bytes.now result }
    {
        let operators = operators_of(bytes, self.header.rows)?;
        let table = ActionTable::new(self.vocabulary, operators.as_slice())?;
        Some(PlantTable::Actions(table))
    }

    // The network whose switches and fed sections are these bytes.
    fn network_of(&self, bytes: &[u8]) -> Option<PlantTable>
        requires kind { self.now.header.plant ≡ kind.Network }
        requires size { length bytes.now ≡ SWITCH * self.now.header.rows + FED }
        ensures { PartRead (SuitPlant self.now.header self.now.vocabulary) plant_bytes bytes.now result }
    {
        let (front, fed) = bytes.split_last_chunk::<FED>()?;
        let switches: Table<Switch, 16> = decode_table(front)?;
        let network = Network::new(
            self.vocabulary,
            switches.as_slice(),
            u16::from_be_bytes(*fed),
        )?;
        Some(PlantTable::Network(network))
    }

    // The plant of the header's kind and size that has these bytes.
    fn plant_of(&self, bytes: &[u8]) -> Option<PlantTable>
        requires { self.now.header.plant ≡ kind.Network → length bytes.now ≡ SWITCH * self.now.header.rows + FED }
        ensures { PartRead (SuitPlant self.now.header self.now.vocabulary) plant_bytes bytes.now result }
    {
        // the record says which; each arm reads a table of its own
        match self.header.plant {
            PlantKind::Actions => self.actions_of(bytes),
            PlantKind::Network => self.network_of(bytes),
        }
    }

    // The plant's table: the sixth check.
    pub(crate) fn plant(&self) -> Result<PlantTable, ReadRefusal>
        requires { Passed 6 self.now.bytes.now }
        ensures { Step self.now.bytes.now (HasPlant self.now.bytes.now self.now.header self.now.vocabulary) 7 result }
    {
        let bytes = &self.bytes[self.layout.plant..self.layout.facts];
        self.plant_of(bytes).ok_or(ReadRefusal::Plant)
    }
}
