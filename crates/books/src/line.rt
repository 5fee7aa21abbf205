ghost use Rattle.std.specs.Prelude.{◌≡◌, true};
ghost use Rattle.books.specs.Lines.{blank_line, line_bytes, line_fits};
ghost use Rattle.std.proofs.Common.{rules};

use codec::blank::Blank;
use codec::coded::{Coded, Compact};
use model::fact::Literal;

// The number of the broken step, where the rules are broken. A line may lead to it, but none leaves it.
// It is no kind of its own, since a line of a record names it so.
pub const BROKEN: u8 = 16;

// One line of a chart: at one step, a picture in which the literal holds leads to another step.
// Steps are 0 to 15; a line may also lead to the broken step, 16.
#[derive(Debug, Clone, Copy, Default, PartialEq, Eq)]
pub struct Line {
    // the two steps by their numbers, as a record has them: any byte may come, and `fits` says which are steps
    pub from: u8,
    pub literal: Literal,
    pub to: u8,
}

impl Line {
    // Whether its steps are steps of a chart, and its fact is one of so many.
    pub(crate) fn fits(self, facts: u16) -> bool
        ensures { result ≡ line_fits facts self }
    {
        self.from <= 15 && self.to <= BROKEN && self.literal.fact.number < facts
    }
}

impl Blank for Line {
    ghost blank = { blank_line };

    ghost only = { Prim.search rules };
}

impl Coded<5> for Line {
    ghost code = { line_bytes };

    ghost proper = { λ _. true };

    ghost narrow = { Prim.search rules };

    ghost fixed = { Prim.search rules };

    ghost one = { Prim.search rules };

    fn from_array(bytes: &[u8; 5]) -> Option<Line> {
        let [from, sign, high, low, to] = *bytes;
        Some(Line {
            from,
            literal: Literal::from_array(&[sign, high, low])?,
            to,
        })
    }

    fn encode(&self) -> [u8; 5] {
        let [sign, high, low]: [u8; 3] = self.literal.encode();
        [self.from, sign, high, low, self.to]
    }
}

impl Compact<5> for Line {
    ghost small = { Prim.search rules };
}
