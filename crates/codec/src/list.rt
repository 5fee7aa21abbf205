ghost use Rattle.std.specs.Prelude.{length};
ghost use Rattle.codec.specs.Codes.{ListDecoded, ListEncoded, TableDecoded};

use crate::blank::Blank;
use crate::coded::Coded;
use crate::table::Table;

// Reads one value for each place of `items` from bytes that are just their codes.
// None where there are no such values, and then it is open what `items` holds.
pub fn decode_list<T: Coded<WIDTH>, const WIDTH: usize>(bytes: &[u8], items: &mut [T]) -> Option<()>
    ensures { ListDecoded T.Coded.code T.Coded.proper bytes.now (length items.old) items.new result }
{
    let mut left = bytes;
    // by index: what was read so far stands in the places below i
    for i in 0..items.len() {
        let (front, behind) = left.split_first_chunk::<WIDTH>()?;
        items[i] = T::from_array(front)?;
        left = behind;
    }
    left.is_empty().then_some(())
}

// The table of the values whose codes, one after the other, are just these bytes.
// None where there are no such values, or more than the table has places for.
#[inline(always)]
pub fn decode_table<T: Coded<WIDTH> + Blank, const WIDTH: usize, const N: usize>(
    bytes: &[u8],
) -> Option<Table<T, N>>
    ensures { TableDecoded T.Coded.code T.Coded.proper N bytes.now result }
{
    // values of no bytes: there is just one list of bytes for them, and the shortest list of values will do
    let count = bytes.len().checked_div(WIDTH).unwrap_or(0);
    if count > N {
        return None;
    }
    let mut places = [T::default(); N];
    decode_list(bytes, &mut places[..count])?;
    Some(Table::of(places, count))
}

// Writes the codes of values that a record can hold over a buffer of just their size.
// None where the buffer has another size, and then it stays as it was.
pub fn encode_list<T: Coded<WIDTH>, const WIDTH: usize>(items: &[T], out: &mut [u8]) -> Option<()>
    ensures { ListEncoded T.Coded.code T.Coded.proper WIDTH items.now out.old out.new result }
{
    let size = WIDTH.checked_mul(items.len())?;
    if out.len() != size {
        return None;
    }
    let mut at = 0;
    for x in items {
        let end = at + WIDTH;
        out[at..end].copy_from_slice(&x.encode());
        at = end;
    }
    Some(())
}
