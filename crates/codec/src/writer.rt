ghost use Rattle.std.specs.Prelude.{◌≤◌, length};

// A buffer that is filled from its start, and how far it is filled.
#[derive(Drop)]
pub struct Writer<'a> {
    pub out: &'a mut [u8],
    pub at: usize,
    ghost inside: { at ≤ length out.now },
}
