ghost use Rattle.std.specs.Prelude.{◌≡◌};
ghost use Rattle.feeder.specs.Refusals.{read_number, write_number};

// Why bytes are no feeder record: the first of the nine checks that fails. The numbers are those of docs/REFUSALS.md.
#[derive(Debug, Clone, Copy, PartialEq, Eq)]
pub enum ReadRefusal {
    Short = 1,
    Version = 2,
    Header = 3,
    Length = 4,
    Predicates = 5,
    Plant = 6,
    FirstFacts = 7,
    Goal = 8,
    Rules = 9,
}

impl ReadRefusal {
    // The number of a refusal.
    pub fn number(self) -> u8
        ensures { result ≡ read_number self }
    {
        self as u8
    }
}

// Why a record is not written: the buffer is too short. The number is that of docs/REFUSALS.md.
// An enum of its own, as each family of calls has: the type of a call says which refusals it gives.
#[derive(Debug, Clone, Copy, PartialEq, Eq)]
pub enum WriteRefusal {
    Short = 62,
}

impl WriteRefusal {
    // The number of a refusal.
    pub fn number(self) -> u8
        ensures { result ≡ write_number self }
    {
        WriteRefusal::Short as u8
    }
}
