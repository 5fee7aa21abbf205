ghost use Rattle.std.specs.Prelude.{◌≡◌, ◌+◌, ◌*◌, ◌≤◌};
ghost use Rattle.feeder.specs.Layouts.{LayoutMade, OperatorSized, Sized, operators_size, plant_size, rules_size};

use crate::header::{BookKind, HEADER, Header, PlantKind};

// How many bytes the counts in front of an operator take.
pub(crate) const HEAD: usize = 3;

// How many bytes a literal of an operator takes.
pub(crate) const LIFTED: usize = 4;

// How many bytes a switch of a network takes.
pub(crate) const SWITCH: usize = 2;

// How many bytes the fed sections of a network take.
pub(crate) const FED: usize = 2;

// How many bytes a first fact takes.
pub(crate) const FACT: usize = 2;

// How many bytes a goal literal takes.
pub(crate) const LITERAL: usize = 3;

// How many bytes a node of a formula takes.
const NODE: usize = 4;

// How many bytes a line of a chart takes.
const LINE: usize = 5;

// Where the parts of a record begin. The arities begin behind the header, and the rules end the record.
#[derive(Debug, Clone, Copy, PartialEq, Eq)]
pub struct Layout {
    pub plant: usize,
    pub facts: usize,
    pub goal: usize,
    pub rules: usize,
}

// How many bytes an operator of so many literals takes.
pub(crate) fn operator_size(literals: usize) -> usize
    requires { literals ≤ 510 }
    ensures { result ≡ HEAD + LIFTED * literals }
{
    HEAD + LIFTED * literals
}

// How many bytes the operator takes that some bytes begin with; none where there are too few to tell.
pub(crate) fn operator_bytes(bytes: &[u8]) -> Option<usize>
    ensures { OperatorSized bytes.now result }
{
    let [_, needs, effects] = *bytes.first_chunk::<HEAD>()?;
    Some(operator_size(needs as usize + effects as usize))
}

// How many bytes the operators take that some bytes begin with, if there are so many.
// Their counts stand as they are, since the bytes may be no operators; the writer counts the operators it has.
fn operators_bytes(bytes: &[u8], rows: u8) -> Option<usize>
    ensures { Sized (operators_size rows bytes.now) bytes.now result }
{
    let mut rest = bytes;
    let mut size = 0;
    // so many turns, and no chunks: where an operator ends shows only in its own head
    for _ in 0..rows {
        let own = operator_bytes(rest)?;
        let (_, back) = rest.split_at_checked(own)?;
        rest = back;
        size += own;
    }
    Some(size)
}

// How many bytes the plant's table takes, if there are so many.
// Counted from bytes that may be no table; the writer counts the operators or switches that it has.
fn plant_bytes(kind: PlantKind, rows: u8, bytes: &[u8]) -> Option<usize>
    ensures { Sized (plant_size kind rows bytes.now) bytes.now result }
{
    match kind {
        PlantKind::Actions => operators_bytes(bytes, rows),
        PlantKind::Network => {
            let size = SWITCH * rows as usize + FED;
            (size <= bytes.len()).then_some(size)
        }
    }
}

// How many bytes the rules take.
// From their count alone, since nodes and lines have fixed widths; so it serves the reader and the writer.
pub(crate) fn rules_bytes(kind: BookKind, rules: u8) -> usize
    ensures { result ≡ rules_size kind rules }
{
    match kind {
        BookKind::Formula => NODE * rules as usize,
        BookKind::Chart => LINE * rules as usize,
    }
}

impl Layout {
    // The places of the parts of a record, or none where its length is another than its counts call for.
    pub fn new(header: &Header, bytes: &[u8]) -> Option<Layout>
        ensures { LayoutMade header.now bytes.now result }
    {
        let plant = HEADER + header.predicates as usize;
        let (_, rest) = bytes.split_at_checked(plant)?;
        let facts = plant + plant_bytes(header.plant, header.rows, rest)?;
        let left = bytes.len() - facts;
        let goal = FACT * header.first as usize;
        let rules = goal + LITERAL * header.goal as usize;
        let end = rules + rules_bytes(header.book, header.rules);
        if left != end {
            return None;
        }
        Some(Layout {
            plant,
            facts,
            goal: facts + goal,
            rules: facts + rules,
        })
    }
}
