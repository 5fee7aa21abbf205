ghost use Rattle.codec.specs.Codes.{Decoded};
ghost use Rattle.plants.specs.Operators.{operator_bytes};
ghost use Rattle.feeder.specs.Operators.{OperatorsRead, operator_holds};

use crate::layout::{HEAD, LIFTED, operator_bytes};
use codec::list::decode_table;
use codec::table::Table;
use plants::literal::LiftedLiteral;
use plants::operator::Operator;

// The operator that has just these bytes, or none where no operator has them.
fn operator_of(bytes: &[u8]) -> Option<Operator>
    ensures { Decoded operator_bytes operator_holds bytes.now result }
{
    let (head, literals) = bytes.split_first_chunk::<HEAD>()?;
    let [parameters, before, after] = *head;
    let (front, back) = literals.split_at_checked(LIFTED * before as usize)?;
    if back.len() != LIFTED * after as usize {
        return None;
    }
    let needs: Table<LiftedLiteral, 8> = decode_table(front)?;
    let effects: Table<LiftedLiteral, 8> = decode_table(back)?;
    Operator::of(parameters, needs.as_slice(), effects.as_slice())
}

// So many operators, at most 16, whose bytes these are, or none where no operators have them.
// No list of values of one width: where an operator ends shows only in its own head.
pub(crate) fn operators_of(bytes: &[u8], rows: u8) -> Option<Table<Operator, 16>>
    ensures { OperatorsRead rows bytes.now result }
{
    let mut table = Table::empty();
    let mut rest = bytes;
    // so many turns, and no chunks: operators differ in width
    for _ in 0..rows {
        let (front, back) = rest.split_at_checked(operator_bytes(rest)?)?;
        table.push(operator_of(front)?)?;
        rest = back;
    }
    rest.is_empty().then_some(table)
}
