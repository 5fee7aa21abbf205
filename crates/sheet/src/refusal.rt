ghost use Rattle.std.specs.Prelude.{◌≡◌};
ghost use Rattle.sheet.specs.Sheet.{sheet_number};

// Why a text was not written.
// An enum of its own, as each family of calls has: the type of a call says which refusals it gives.
#[derive(Debug, Clone, Copy, PartialEq, Eq)]
pub enum SheetRefusal {
    // the buffer has fewer places than the text has bytes
    Short,
}

impl SheetRefusal {
    // The number under which a program prints the refusal.
    // By a match: the number is that of docs/REFUSALS.md, and stands here once.
    pub fn number(self) -> u8
        ensures { result ≡ sheet_number self }
    {
        match self {
            SheetRefusal::Short => 61,
        }
    }
}
