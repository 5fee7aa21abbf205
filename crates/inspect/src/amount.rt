// How many things there are, in words.
ghost use Rattle.std.specs.Prelude.{Some};
ghost use Rattle.inspect.specs.Texts.{amount_text};

use std::fmt;

// A number of things that have this name: no moves, 1 move, 2 moves.
#[derive(Clone, Copy)]
pub(crate) struct Amount<'a>(pub(crate) usize, pub(crate) &'a str);

impl fmt::Display for Amount<'_> {
    ghost output = { λ a. Some (amount_text a.0 a.1.now) };

    fn fmt<W: fmt::Write>(&self, f: &mut fmt::Formatter<W>) -> fmt::Result {
        let Amount(n, name) = *self;
        match n {
            0 => write!(f, "no {name}s"),
            1 => write!(f, "1 {name}"),
            _ => write!(f, "{n} {name}s"),
        }
    }
}
