ghost use Rattle.std.specs.Prelude.{◌≡◌, ℕ, ◌^◌, ◌<◌, length, slice_index};

// A picture: the set of the facts that hold at one moment.
// Facts are 0 to 511, and each has one bit: fact f has bit f % 64 of word f / 64.
#[derive(Clone, Copy)]
pub struct Picture {
    // bits and no list: these are 64 bytes of a panel's fixed memory, where a list for 512 facts has over 1000
    pub words: [u64; 8],
    ghost places: { length words ≡ 8 },
    ghost small: { (i : ℕ) → slice_index words i < 2 ^ 64 },
}
