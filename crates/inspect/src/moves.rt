// The first state of a plant in words: its picture, and the moves that are allowed in it.
ghost use Rattle.std.specs.Prelude.{◌≡◌, IfOk, Some};
ghost use Rattle.grid.specs.Actions.{action_of};
ghost use Rattle.inspect.specs.Texts.{action_text, operator_text};
ghost use Rattle.model.specs.Pictures.{chosen};

use crate::words::Words;
use feeder::record::Feeder;
use feeder::tables::PlantTable;
use grid::action::Action;
use grid::plant::NetworkPlant;
use model::plant::Plant;
use std::alloc::{AllocError, Global};
use std::fmt;
use strips::plant::ActionPlant;

// A move of a plant, by its number.
#[derive(Clone, Copy)]
struct Move<'a, P> {
    plant: &'a P,
    number: u16,
}

impl fmt::Display for Move<'_, NetworkPlant> {
    ghost output = { λ m. Some (action_text (action_of m.number)) };

    fn fmt<W: fmt::Write>(&self, f: &mut fmt::Formatter<W>) -> fmt::Result {
        match Action::of(self.number) {
            Some(Action::Open(switch)) => write!(f, "open switch {switch}"),
            Some(Action::Close(switch)) => write!(f, "close switch {switch}"),
            Some(Action::Earth(section)) => write!(f, "place an earth at section {section}"),
            Some(Action::Lift(section)) => write!(f, "lift the earth at section {section}"),
            // no allowed move comes here
            None => f.write_str("no action"),
        }
    }
}

// A move of an action table is its operator and the objects that the operator is applied to.
impl fmt::Display for Move<'_, ActionPlant> {
    ghost output = { λ m. Some (operator_text m.plant.now.table m.number) };

    fn fmt<W: fmt::Write>(&self, f: &mut fmt::Formatter<W>) -> fmt::Result {
        let table = &self.plant.table;
        let operators = table.operators.as_slice();
        let k = self.number / 256;
        let first = self.number / 16 % 16;
        let second = self.number % 16;
        let taken = operators
            .get(usize::from(k))
            .map(|operator| operator.parameters);
        match taken {
            // every allowed move has an operator of the table
            None | Some(0) => write!(f, "operator {k}"),
            Some(1) => write!(f, "operator {k} with {first}"),
            Some(_) => write!(f, "operator {k} with {first}, {second}"),
        }
    }
}

// Moves of a plant, by their numbers.
#[derive(Drop)]
struct Moves<'a, P> {
    plant: &'a P,
    numbers: Vec<u16>,
}

// How many moves there are, and a line for each: its number and what it does.
impl<'a, P> fmt::Display for Moves<'a, P>
where
    Move<'a, P>: fmt::Display,
{
    fn fmt<W: fmt::Write>(&self, f: &mut fmt::Formatter<W>) -> fmt::Result {
        if self.numbers.is_empty() {
            return writeln!(f, "none");
        }
        writeln!(f, "{}", self.numbers.len())?;
        for number in &self.numbers {
            let of = Move {
                plant: self.plant,
                number: *number,
            };
            writeln!(f, "  {number}: {of}")?;
        }
        Ok(())
    }
}

// The moves that are allowed in a state, in ascending order.
fn allowed_moves<P: Plant>(
    heap: Global,
    plant: &P,
    state: &P::State,
) -> Result<Vec<u16>, AllocError>
    ensures { IfOk result (λ v. v.items ≡ chosen 4096 (P.Plant.allowed plant.now state.now)) }
{
    let mut moves = Vec::new(heap);
    let mut from = 0;
    // each question begins behind the last answer, so no range or list says beforehand what to go over
    while let Some(found) = plant.allowed_from(state, from) {
        moves.push(found)?;
        from = found + 1;
    }
    Ok(moves)
}

// The picture of the first state, and the moves that are allowed in it.
fn first_state<'a, P: Plant>(
    heap: Global,
    words: &'a Words,
    plant: &'a P,
) -> Result<String, AllocError>
where
    Move<'a, P>: fmt::Display,
{
    let state = plant.first_state();
    let members = plant.picture(&state).members();
    let picture = words.list(members.as_slice(), "none");
    let numbers = allowed_moves(heap, plant, &state)?;
    let moves = Moves { plant, numbers };
    format!(in heap; "first picture: {picture}\nallowed moves: {moves}")
}

// The picture of a feeder's first state, and the moves that are allowed in it.
pub(crate) fn start(heap: Global, words: &Words, feeder: &Feeder) -> Result<String, AllocError> {
    let first = feeder.first;
    match &feeder.plant {
        PlantTable::Actions(table) => {
            let plant = ActionPlant {
                table: *table,
                first,
            };
            first_state(heap, words, &plant)
        }
        PlantTable::Network(network) => {
            let plant = NetworkPlant {
                network: *network,
                first,
            };
            first_state(heap, words, &plant)
        }
    }
}

#[cfg(test)]
mod tests {
    use super::start;
    use crate::words::Words;
    use feeder::read::read;
    use std::test::Fail;

    // The example of three sections.
    // The same bytes as in the tests of whole records, which no other crate sees.
    const EXAMPLE: [u8; 50] = *b"\
        \x01\x02\x03\x03\x02\x01\x05\x02\x02\x00\x02\
        \x01\x01\x01\
        \x00\x01\x01\x02\x00\x01\
        \x00\x00\x00\x01\
        \x01\x00\x05\x01\x00\x07\
        \x02\x02\x10\x00\x02\x01\x10\x00\x05\x01\x00\x00\x0c\x00\x02\x00\x0a\x03\x00\x00";

    // Both switches are closed, so all sections are live; either can be opened, and an earth placed anywhere.
    const SAID: &str = "first picture: closed(0), closed(1), live(0), live(1), live(2)\n\
        allowed moves: 5\n\
        \x20 0: open switch 0\n\
        \x20 16: open switch 1\n\
        \x20 512: place an earth at section 0\n\
        \x20 528: place an earth at section 1\n\
        \x20 544: place an earth at section 2\n";

    #[test]
    fn first_state_of_the_example(rt: HostRuntime) -> Result<(), Fail> {
        // by let-else: the check makes no proof of `?` with the tables of the feeder taken out behind it
        let Ok(feeder) = read(&EXAMPLE) else {
            return Err(Fail::new("refused"));
        };
        let said = start(rt.alloc(), &Words::from(&feeder.plant), &feeder)?;
        assert_eq!(rt; said.as_str(), SAID);
        Ok(())
    }
}
