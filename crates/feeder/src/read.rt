ghost use Rattle.std.specs.Prelude.{◌≡◌, Result as Answer};
ghost use Rattle.feeder.specs.declared.record.Feeder.{Feeder as Accepted};
ghost use Rattle.feeder.specs.declared.refusal.ReadRefusal.{ReadRefusal as Reason};
ghost use Rattle.feeder.specs.Verdicts.{ExactlyOf, Reloaded, Verdict};

use crate::heading::{read_header, read_layout};
use crate::reading::Reading;
use crate::record::Feeder;
use crate::refusal::ReadRefusal;
use crate::words::read_words;

// Runs the nine checks in their order.
fn judge(bytes: &[u8]) -> Result<Feeder, ReadRefusal>
    ensures { Verdict bytes.now result }
{
    let header = read_header(bytes)?;
    let layout = read_layout(bytes, &header)?;
    let vocabulary = read_words(bytes, &header)?;
    let reading = Reading {
        bytes,
        header,
        layout,
        vocabulary,
    };
    let plant = reading.plant()?;
    let first = reading.first()?;
    let goal = reading.goal()?;
    let rules = reading.rules()?;
    Ok(Feeder {
        plant,
        first,
        goal,
        rules,
        limit: header.limit,
    })
}

// The feeder whose record these bytes are, or the first check that they fail.
// Every string of bytes has one answer only.
pub fn read(bytes: &[u8]) -> Result<Feeder, ReadRefusal>
    ensures verdict { Verdict bytes.now result }
    ensures only { (a : Answer Accepted Reason) → Verdict bytes.now a → a ≡ result }
    ensures exact { (f : Accepted) → ExactlyOf bytes.now f result }
{
    judge(bytes)
}

impl Feeder {
    // Puts the feeder of a record in the place of this one. A refused record leaves this one as it was.
    pub fn reload(&mut self, bytes: &[u8]) -> Result<(), ReadRefusal>
        ensures { Reloaded bytes.now self.old self.new result }
    {
        // a match, since the check makes no proof of `?` and an assignment here
        match read(bytes) {
            Ok(feeder) => {
                *self = feeder;
                Ok(())
            }
            Err(refusal) => Err(refusal),
        }
    }
}
