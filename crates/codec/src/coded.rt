ghost use Rattle.std.specs.Prelude.{◌≡◌, ◌<◌, ◌≤◌, ◌^◌, ℕ, Bool, true, List, length};
ghost use Rattle.codec.specs.Codes.{Decoded};

// A kind of value that a record holds in a fixed number of bytes.
pub trait Coded<const WIDTH: usize>: Copy {
    // the bytes of a value
    ghost code: { Self → List ℕ };

    // which values a record can hold
    ghost proper: { Self → Bool };

    // The value that has these bytes, or none where no value has them.
    fn from_array(bytes: &[u8; WIDTH]) -> Option<Self>
        ensures { Decoded code proper bytes.now result };

    // The value that has just these bytes, or none where no value has them: bytes of another number are of none.
    final fn decode(bytes: &[u8]) -> Option<Self>
        ensures { Decoded code proper bytes.now result }
    {
        let (front, rest) = bytes.split_first_chunk::<WIDTH>()?;
        if !rest.is_empty() {
            return None;
        }
        Self::from_array(front)
    }

    // The bytes of a value that a record can hold.
    fn encode(&self) -> [u8; WIDTH]
        ensures { proper self.now ≡ true → result ≡ code self.now };

    // an array can have that many bytes
    ghost narrow: { WIDTH < 2 ^ 63 };

    // each value has as many bytes
    ghost fixed: { (x : Self) → length (code x) ≡ WIDTH };

    // a value that a record can hold is known by its bytes
    ghost one: { (x y : Self) → proper x ≡ true → proper y ≡ true → code x ≡ code y → x ≡ y };
}

// A kind of value of at most 16 bytes, as each kind in this repository is. What is written for all such kinds may count on it.
pub trait Compact<const WIDTH: usize>: Coded<WIDTH> {
    // WIDTH is at most 16; the premise is what `fixed` says, and docs/DECISIONS.md says why it stands here
    ghost small: { ((x : Self) → length (Self.code x) ≡ WIDTH) → WIDTH ≤ 16 };
}
