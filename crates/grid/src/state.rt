ghost use Rattle.std.specs.Prelude.{◌≡◌, length};

use crate::sections::Sections;

// The position of a switch.
#[derive(Debug, Clone, Copy, PartialEq, Eq)]
pub struct Position {
    // a truth value and no enum: closed or not is all that a position says, as facts say it
    pub closed: bool,
}

// A state of a network: the position of each switch, by its number, and the sections at which an earth is placed.
// Which sections are live follows from it and is not stored.
#[derive(Debug, Clone, Copy, PartialEq, Eq)]
pub struct NetworkState {
    // by number, as the network's switches: a state does not hold its network
    pub switches: [Position; 16],
    pub earths: Sections,
    ghost places: { length switches ≡ 16 },
}
