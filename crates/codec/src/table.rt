ghost use Rattle.std.specs.Prelude.{◌≡◌, ◌≤◌, length, take, [], ⊤};
ghost use Rattle.codec.specs.Codes.{Unused, table_of};
ghost use Rattle.codec.specs.Tables.{Pushed, TableMade};

use crate::blank::Blank;
use std::alloc::AllocError;
use std::marker::Model;

// At most N values in their order, in an array: a list for a memory that is fixed. Contracts see the list of the values.
// Not the library's vector of fixed size, since that cannot be copied, and a feeder is copied as one value.
#[derive(Copy)]
pub struct Table<T: Blank, const N: usize> {
    // behind the values there is the blank value, so that equal lists are equal values
    places: [T; N],
    count: usize,
}

impl<T: Blank, const N: usize> Model for Table<T, N> {
    ghost use Rattle.std.specs.Prelude.{◌≡◌, ◌≤◌, List, length, take};
    ghost use Rattle.codec.specs.Codes.{Unused, table_of};

    ghost Value = { List T };

    ghost view = { λ t. take t.count t.places };

    ghost invariant = { λ t. (t.count ≤ N) × (length t.places ≡ N) × Unused T.blank t.places t.count };

    ghost inverse = { λ xs. record { places = table_of N T.blank xs; count = length xs } };

    ghost use Rattle.std.proofs.Math.Path.{ap₂};
    ghost use Rattle.codec.specs.Padding.{count_back, padded_back};

    ghost inverse_ok = { λ a h. ap₂ (λ xs n. record { places = xs; count = n }) (padded_back T.blank N a.count a.places h.0 h.1 h.2) (count_back N a.count a.places h.0 h.1) };
}

// Written out, since what is known of a clone of a T is less than that it is the same.
impl<T: Blank, const N: usize> Clone for Table<T, N> {
    ghost is_clone = { λ x y. y ≡ x };

    ghost is_infallible = { λ _. ⊤ };

    fn clone(&self) -> Result<Self, AllocError> {
        Ok(*self)
    }
}

impl<T: Blank, const N: usize> Table<T, N> {
    // The table of no values.
    pub fn empty() -> Self
        ensures { result ≡ [] }
    {
        Table {
            places: [T::default(); N],
            count: 0,
        }
    }

    // The table of these values. None where there are more than it has places for.
    // Always inline, as all that makes a table: else each call copies it once more.
    #[inline(always)]
    pub fn new(items: &[T]) -> Option<Self>
        ensures { TableMade N items.now result }
    {
        if items.len() > N {
            return None;
        }
        Some(Table {
            places: padded(T::default(), items),
            count: items.len(),
        })
    }

    // The table of the values in the first places, if the blank value stands in each place behind them.
    #[inline(always)]
    pub(crate) fn of(places: [T; N], count: usize) -> Self
        requires few { count ≤ N }
        requires rest { Unused T.Blank.blank places count }
        ensures { result ≡ take count places }
    {
        Table { places, count }
    }

    // How many values there are.
    pub fn len(&self) -> usize
        ensures same { result ≡ length self.now }
        ensures few { length self.now ≤ N }
    {
        self.as_slice().len()
    }

    // The values in their order.
    pub fn as_slice(&self) -> &[T]
        ensures same { result.now ≡ self.now }
        ensures few { length self.now ≤ N }
    {
        let all = &self.places[..];
        &all[0..self.count]
    }

    // Puts a value behind the last. None where there is no place for it, and then nothing changes.
    pub fn push(&mut self, x: T) -> Option<()>
        ensures { Pushed N self.old x self.new result }
    {
        if self.count == N {
            return None;
        }
        self.places[self.count] = x;
        self.count += 1;
        Some(())
    }
}

// An array of N places: the values in their order, and `blank` in each place behind them.
// Values for which there is no place are left out.
#[inline(always)]
pub fn padded<T: Copy, const N: usize>(blank: T, items: &[T]) -> [T; N]
    ensures { result ≡ table_of N blank items.now }
{
    let n = items.len().min(N);
    let mut places = [blank; N];
    places[..n].copy_from_slice(&items[..n]);
    places
}
