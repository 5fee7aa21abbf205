ghost use Rattle.std.specs.Prelude.{◌≡◌};
ghost use Rattle.grid.specs.Actions.{Numbered, action_of};

// What a move of a network does, to a switch or at a section, by its number.
#[derive(Debug, Clone, Copy, PartialEq, Eq)]
pub enum Action {
    // opens a switch
    Open(u8),
    // closes a switch
    Close(u8),
    // places an earth at a section
    Earth(u8),
    // lifts the earth from a section
    Lift(u8),
}

impl Action {
    // The action of a move number, if it has one. The operators 0 to 3 stand in the order above; the number is
    // operator × 256 + argument × 16.
    // This is no `TryFrom`, since an error type would say no more than None does.
    pub fn of(number: u16) -> Option<Action>
        ensures same { result ≡ action_of number }
        ensures law { Numbered number result }
    {
        let [operator, arguments] = number.to_be_bytes();
        if arguments % 16 != 0 {
            return None;
        }
        let argument = arguments / 16;
        match operator {
            0 => Some(Action::Open(argument)),
            1 => Some(Action::Close(argument)),
            2 => Some(Action::Earth(argument)),
            3 => Some(Action::Lift(argument)),
            _ => None,
        }
    }
}
