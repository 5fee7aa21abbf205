ghost use Rattle.std.specs.Prelude.{◌≡◌, ℕ, suc, ◌-◌, ◌^◌, ◌<◌, ◌≤◌, Bool, true, false, ◌&&◌, ◌||◌};
ghost use Rattle.model.specs.Drawn.{bits_of};
ghost use Rattle.model.specs.Pictures.{bit};
ghost use Rattle.ltl.specs.Classes.{Class, ahead as going, following, told, within};
ghost use Rattle.ltl.specs.Masks.{Masked};

use crate::classes::Classes;

// Whether a position is in a mask.
fn has(mask: u32, i: u8) -> bool
    requires { i < 32 }
    ensures { result ≡ bit mask i }
{
    (mask >> i) & 1 == 1
}

// Going on from each of n positions: whether one is met whose `hit` bit is set, with the `stay` bits of all before it set;
// behind the last position stands `end`.
fn ahead(n: u8, end: bool, stay: u32, hit: u32) -> u32
    requires { n ≤ 25 }
    ensures { result ≡ bits_of n (λ i. going (n - i) end (bit stay) (bit hit) i) }
{
    let mut bits = 0;
    let mut on = end;
    for i in (0..n).rev() {
        on = has(hit, i) || (has(stay, i) && on);
        // by a shift, since positions come from the last to the first
        bits = bits << 1 | u32::from(on);
    }
    bits
}

impl Classes {
    // What is always known.
    // `value` is the truth value of a constant formula and no flag: it says which of the two masks is full.
    pub(crate) fn constant(n: u8, value: bool) -> Classes
        requires { n ≤ 25 }
        ensures { Masked n (λ i. told value) result }
    {
        // one bit for each of n positions, and one for those behind them
        let all = (2 << n) - 1;
        if value {
            Classes { sure: all, lost: 0 }
        } else {
            Classes { sure: 0, lost: all }
        }
    }
}
