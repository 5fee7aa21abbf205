ghost use Rattle.std.specs.Prelude.{◌≡◌, ℕ, ◌-◌, ◌^◌, ◌<◌, ◌≤◌, false, not, ◌&&◌, ◌||◌, ◌==◌};
ghost use Rattle.model.specs.Drawn.{bits_of};
ghost use Rattle.model.specs.Pictures.{bit};

use plants::network::Network;

// A set of sections: bit s says whether section s is in it.
// Bits of one number: two sets are compared, or cut to what both have, in one step; contracts speak of the bits.
#[derive(Debug, Clone, Copy, PartialEq, Eq)]
pub struct Sections {
    pub bits: u16,
    ghost small: { bits < 2 ^ 16 },
}

impl Sections {
    // Whether a section is in the set.
    pub fn has(self, section: u8) -> bool
        ensures { result ≡ bit self.bits section }
    {
        section < 16 && (self.bits >> section) & 1 == 1
    }

    // All sections of a network.
    pub(crate) fn all(network: &Network) -> Sections
        ensures { result.bits ≡ 2 ^ network.now.vocabulary.objects - 1 }
    {
        Sections {
            bits: u16::MAX >> (16 - network.vocabulary.objects),
        }
    }

    // Those of the first sections, of which there are so many, that pass a test.
    // It is told how many, since switches are counted apart from sections, and each has its own number of turns.
    pub(crate) fn those<F: Fn(u8) -> bool>(count: u8, test: F) -> Sections
        requires few { count ≤ 16 }
        requires callable { F.IsAlwaysCallable test }
        ensures tested { (k : ℕ) → k < count → F.post test k (bit result.bits k) }
        ensures others { (k : ℕ) → count ≤ k → bit result.bits k ≡ false }
    {
        let mut bits = 0;
        for section in 0..count {
            if test(section) {
                bits |= bit_of(section);
            }
        }
        Sections { bits }
    }

    // The bits of those that a network has.
    pub(crate) fn within(self, network: &Network) -> u16
        ensures { result ≡ bits_of network.now.vocabulary.objects (bit self.bits) }
    {
        self.bits & Sections::all(network).bits
    }

    // The set with one section more.
    // Apart from `without`, as the library's sets have two such calls: each changes the bits in its own way.
    pub(crate) fn with(self, section: u8) -> Sections
        ensures bits { (k : ℕ) → k < 16 → bit result.bits k ≡ (k == section || bit self.bits k) }
        ensures more { self.bits ≤ result.bits }
    {
        Sections {
            bits: self.bits | bit_of(section),
        }
    }

    // The set without one of its sections.
    // Not one function with a flag for both, since `with` sets a bit and this clears one.
    pub(crate) fn without(self, section: u8) -> Sections
        ensures { (k : ℕ) → k < 16 → bit result.bits k ≡ (not (k == section) && bit self.bits k) }
    {
        Sections {
            bits: self.bits & !bit_of(section),
        }
    }
}

// The bit of a section, and none of a number from 16 on, which no section has.
fn bit_of(section: u8) -> u16
    ensures { (k : ℕ) → k < 16 → bit result k ≡ (k == section) }
{
    1u16.checked_shl(u32::from(section)).unwrap_or(0)
}
