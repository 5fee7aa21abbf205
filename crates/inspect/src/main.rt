// Reads a feeder record from standard input, says in words what it holds, and writes it back;
// or says under which number the input is refused.
#![tactic(auto)]

mod amount;
mod input;
mod moves;
mod plant;
mod rules;
mod words;

ghost use Rattle.std.specs.Prelude.{◌≡◌, Some, Err, Decides, IfOk, string_bytes};
ghost use Rattle.feeder.specs.Records.{encode};
ghost use Rattle.feeder.specs.declared.refusal.ReadRefusal.{ReadRefusal as Reason};
ghost use Rattle.feeder.specs.Refusals.{read_number};
ghost use Rattle.feeder.specs.Verdicts.{Verdict};
ghost use Rattle.sheet.specs.Sheet.{refusal_line};

use crate::amount::Amount;
use crate::input::take_in;
use crate::words::Words;
use feeder::read::read;
use feeder::record::Feeder;
use feeder::refusal::ReadRefusal;
use feeder::write::{LONGEST, write};
use std::alloc::{AllocError, Global};
use std::io::Write;
use std::{fmt, io};

// What a feeder holds, and whether writing it back gives the bytes that it was read from.
fn report<'a>(
    heap: Global,
    words: &'a Words,
    feeder: &'a Feeder,
    bytes: &[u8],
) -> Result<String, AllocError> {
    let plant = words.say(&feeder.plant);
    let members = feeder.first.members();
    let first = words.list(members.as_slice(), "none");
    let goal = words.list(feeder.goal.literals.as_slice(), "nothing is wanted");
    let limit = Amount(usize::from(feeder.limit), "move");
    let rules = words.say(&feeder.rules);
    let length = Amount(bytes.len(), "byte");
    let how = if is_record(feeder, bytes) {
        "the same"
    } else {
        "otherwise"
    };
    format!(in heap;
        "{plant}first facts: {first}\ngoal: {goal}\nlimit: {limit}\n{rules}record: {length}, written back {how}\n"
    )
}

// Whether the record of a feeder is these bytes.
fn is_record(feeder: &Feeder, bytes: &[u8]) -> bool
    ensures { Decides result (encode feeder.now ≡ bytes.now) }
{
    // a buffer of fixed size: the writer serves a panel too, so it takes one and allocates nothing
    let mut buffer = [0u8; LONGEST];
    let length = write(feeder, &mut buffer).unwrap();
    &buffer[..length] == bytes
}

// That the input is refused, and under which number.
#[derive(Clone, Copy)]
struct Refused(ReadRefusal);

impl fmt::Display for Refused {
    ghost output = { λ r. Some (refusal_line (read_number r.0)) };

    fn fmt<W: fmt::Write>(&self, f: &mut fmt::Formatter<W>) -> fmt::Result {
        writeln!(f, "REFUSED,{}", self.0.number())
    }
}

// What the program prints for its input: a report, or one line where the input is refused.
fn answer(heap: Global, bytes: &[u8]) -> Result<String, AllocError>
    ensures refused { (r : Reason) → Verdict bytes.now (Err r) → IfOk result (λ page. string_bytes page ≡ refusal_line (read_number r)) }
{
    match read(bytes) {
        Ok(feeder) => {
            let words = Words::from(&feeder.plant);
            report(heap, &words, &feeder, bytes)
        }
        Err(refusal) => Refused(refusal).to_string(heap),
    }
}

fn main(rt: HostRuntime) -> io::Result<()> {
    let bytes = take_in(rt.alloc(), &mut rt.stdin())?;
    let page = answer(rt.alloc(), bytes.as_slice())?;
    rt.stdout().write_all(page.as_bytes())
}
