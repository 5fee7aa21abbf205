ghost use Rattle.std.specs.Prelude.{◌≡◌, true, [], ◌∷◌};
ghost use Rattle.feeder.specs.Headers.{book_byte, book_fits, counts_fit, header_bytes, plant_byte, plant_fits, within_limits};
ghost use Rattle.std.proofs.Common.{rules};

use codec::coded::{Coded, Compact};

// The version of the record format, which is the first byte of a record.
pub(crate) const VERSION: u8 = 1;

// How many bytes the header has.
pub(crate) const HEADER: usize = 11;

// What kind of plant a record describes.
// A type apart from the kinds of rule books, so that no book can stand for a plant.
#[derive(Debug, Clone, Copy, PartialEq, Eq)]
pub enum PlantKind {
    Actions,
    Network,
}

// What kind of rule book a record holds.
// A type apart from the kinds of plants, so that no plant can stand for a book.
#[derive(Debug, Clone, Copy, PartialEq, Eq)]
pub enum BookKind {
    Formula,
    Chart,
}

impl Coded<1> for PlantKind {
    ghost code = { λ k. plant_byte k ∷ [] };

    ghost proper = { λ _. true };

    ghost narrow = { Prim.search rules };

    ghost fixed = { Prim.search rules };

    ghost one = { Prim.search rules };

    fn from_array(bytes: &[u8; 1]) -> Option<PlantKind> {
        match *bytes {
            [1] => Some(PlantKind::Actions),
            [2] => Some(PlantKind::Network),
            _ => None,
        }
    }

    fn encode(&self) -> [u8; 1] {
        match *self {
            PlantKind::Actions => [1],
            PlantKind::Network => [2],
        }
    }
}

impl Compact<1> for PlantKind {
    ghost small = { Prim.search rules };
}

impl Coded<1> for BookKind {
    ghost code = { λ k. book_byte k ∷ [] };

    ghost proper = { λ _. true };

    ghost narrow = { Prim.search rules };

    ghost fixed = { Prim.search rules };

    ghost one = { Prim.search rules };

    fn from_array(bytes: &[u8; 1]) -> Option<BookKind> {
        match *bytes {
            [1] => Some(BookKind::Formula),
            [2] => Some(BookKind::Chart),
            _ => None,
        }
    }

    fn encode(&self) -> [u8; 1] {
        match *self {
            BookKind::Formula => [1],
            BookKind::Chart => [2],
        }
    }
}

impl Compact<1> for BookKind {
    ghost small = { Prim.search rules };
}

// The first eleven bytes of a record: kinds, counts and the limit.
#[derive(Debug, Clone, Copy, PartialEq, Eq)]
pub struct Header {
    pub plant: PlantKind,
    pub objects: u8,
    pub predicates: u8,
    // operators of an action table, or switches of a network
    pub rows: u8,
    pub book: BookKind,
    // nodes of a formula, or lines of a chart
    pub rules: u8,
    pub goal: u8,
    pub limit: u8,
    pub first: u16,
}

impl Header {
    // Whether every value lies within its limits.
    pub fn is_within_limits(&self) -> bool
        ensures { result ≡ within_limits self.now }
    {
        self.counts_fit() && self.plant_fits() && self.book_fits()
    }

    fn counts_fit(&self) -> bool
        ensures { result ≡ counts_fit self.now }
    {
        1 <= self.objects
            && self.objects <= 16
            && 1 <= self.predicates
            && self.predicates <= 16
            && self.goal <= 64
            && self.limit <= 24
            && self.first <= 512
    }

    // Whether the counts suit the kind of plant; each kind has limits of its own.
    fn plant_fits(&self) -> bool
        ensures { result ≡ plant_fits self.now.plant self.now }
    {
        match self.plant {
            PlantKind::Actions => self.rows <= 16,
            PlantKind::Network => self.predicates == 3 && self.rows <= self.objects,
        }
    }

    // Whether the count of rules suits the kind of rule book; each kind has limits of its own.
    fn book_fits(&self) -> bool
        ensures { result ≡ book_fits self.now.book self.now }
    {
        match self.book {
            BookKind::Formula => 1 <= self.rules && self.rules <= 120,
            BookKind::Chart => self.rules <= 120,
        }
    }
}

impl Coded<HEADER> for Header {
    ghost code = { header_bytes };

    ghost proper = { within_limits };

    ghost narrow = { Prim.search rules };

    ghost fixed = { Prim.search rules };

    ghost one = { Prim.search rules };

    fn from_array(bytes: &[u8; HEADER]) -> Option<Header> {
        let [
            version,
            plant,
            objects,
            predicates,
            rows,
            book,
            rules,
            goal,
            limit,
            high,
            low,
        ] = *bytes;
        if version != VERSION {
            return None;
        }
        let header = Header {
            plant: PlantKind::from_array(&[plant])?,
            objects,
            predicates,
            rows,
            book: BookKind::from_array(&[book])?,
            rules,
            goal,
            limit,
            first: u16::from_be_bytes([high, low]),
        };
        header.is_within_limits().then_some(header)
    }

    fn encode(&self) -> [u8; HEADER] {
        let [plant]: [u8; 1] = self.plant.encode();
        let [book]: [u8; 1] = self.book.encode();
        let [high, low] = self.first.to_be_bytes();
        [
            VERSION,
            plant,
            self.objects,
            self.predicates,
            self.rows,
            book,
            self.rules,
            self.goal,
            self.limit,
            high,
            low,
        ]
    }
}

impl Compact<HEADER> for Header {
    ghost small = { Prim.search rules };
}
