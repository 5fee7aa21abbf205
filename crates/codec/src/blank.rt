ghost use Rattle.std.specs.Prelude.{◌≡◌};

// A kind of value whose default is one fixed value. It stands in places that are not in use.
pub trait Blank: Copy + Default {
    // the value
    ghost blank: { Self };

    ghost only: { (x : Self) → Self.Default.is_default x → x ≡ blank };
}
