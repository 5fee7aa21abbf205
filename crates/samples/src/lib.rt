// Sample records as tests: sound ones, damaged ones for each refusal, and the moves of some plants; and values of some kinds.
#![tactic(auto)]

ghost use Rattle.std.specs.Prelude.{◌≡◌, ◌-◌, ℕ, true, ◌++◌, replicate};
ghost use Rattle.samples.specs.Numbers.{Numbered};

use codec::coded::Compact;
use codec::table::padded;
use feeder::read::read;

#[cfg(test)]
mod example;
#[cfg(test)]
mod kinds;
#[cfg(test)]
mod moves;
#[cfg(test)]
mod parts;
#[cfg(test)]
mod sample;
#[cfg(test)]
mod sizes;

// The number that some bytes are answered with: 0 where they are a feeder's record, else the refusal's.
// A number, as programs print it: the contract says that each string of bytes has one only.
pub fn answer(bytes: &[u8]) -> u8
    ensures numbered { Numbered bytes.now result }
    ensures only { (n : ℕ) → Numbered bytes.now n → n ≡ result }
{
    match read(bytes) {
        Ok(_) => 0,
        Err(refusal) => refusal.number(),
    }
}

// The bytes of a value that a record can hold, in the first of 16 places, and 0 in each place behind them.
// A kind of at most 16 bytes has room there, so none of them is left out. What it answers for another value is open.
pub fn in_sixteen<T: Compact<WIDTH>, const WIDTH: usize>(x: &T) -> [u8; 16]
    ensures { T.Coded.proper x.now ≡ true → result ≡ T.Coded.code x.now ++ replicate (16 - WIDTH) 0 }
{
    padded(0, &x.encode())
}
