ghost use Rattle.std.specs.Prelude.{◌≡◌, ℕ, ◌+◌, ◌*◌, ◌<◌, false, length};
ghost use Rattle.model.specs.Ascents.{fact_numbers};
ghost use Rattle.model.specs.Pictures.{BitPlace, Inserted, PictureMade, Removed, chosen, holds, members};

use crate::fact::Fact;
use crate::picture::Picture;
use codec::table::Table;

impl Picture {
    // The picture in which no fact holds.
    pub fn empty() -> Picture
        ensures { (f : ℕ) → holds result f ≡ false }
    {
        Picture { words: [0; 8] }
    }

    // The picture in which just these facts hold.
    // None where they do not ascend, or one is not below 512.
    pub fn new(facts: &[Fact]) -> Option<Picture>
        ensures { PictureMade facts.now result }
    {
        // there are not more ascending facts than that, so a longer list is not gone through
        if facts.len() > 512 {
            return None;
        }
        if !facts.is_sorted_by(|a, b| a < b) {
            return None;
        }
        let mut picture = Picture::empty();
        for fact in facts {
            picture.insert(*fact)?;
        }
        Some(picture)
    }

    // Whether a fact holds.
    pub fn holds(&self, fact: Fact) -> bool
        ensures { result ≡ holds self.now fact.number }
    {
        place(fact).is_some_and(|(word, bit)| self.words[word] & bit != 0)
    }

    // Adds a fact. None where the fact is not below 512; then the picture stays as it was.
    pub fn insert(&mut self, fact: Fact) -> Option<()>
        ensures { Inserted self.old fact.number self.new result }
    {
        let (word, bit) = place(fact)?;
        self.words[word] |= bit;
        Some(())
    }

    // Takes a fact away. None where the fact is not below 512; then the picture stays as it was.
    // A function of its own, as sets of the library have.
    pub fn remove(&mut self, fact: Fact) -> Option<()>
        ensures { Removed self.old fact.number self.new result }
    {
        let (word, bit) = place(fact)?;
        self.words[word] &= !bit;
        Some(())
    }

    // The facts that hold, ascending.
    pub fn members(&self) -> Table<Fact, 512>
        ensures same { fact_numbers result ≡ members self.now }
        ensures long { length result ≡ length (members self.now) }
    {
        let mut facts = Table::empty();
        // by number: word w has the facts from 64 * w on, and one without facts is passed at once
        for w in 0..8u16 {
            if self.words[usize::from(w)] != 0 {
                self.list_word(w, &mut facts);
            }
        }
        facts
    }

    // Lists the facts of word w behind those of the words before it.
    #[inline(always)]
    fn list_word(&self, w: u16, facts: &mut Table<Fact, 512>)
        requires word { w < 8 }
        requires before { fact_numbers facts.old ≡ chosen (64 * w) (holds self.now) }
        ensures { fact_numbers facts.new ≡ chosen (64 * w + 64) (holds self.now) }
    {
        let word = self.words[usize::from(w)];
        // by number: a fact is known by its place in the word
        for bit in 0..64 {
            if (word >> bit) & 1 == 1 {
                // there is a place for every fact
                let _ = facts.push(Fact {
                    number: 64 * w + bit,
                });
            }
        }
    }
}

// Where the bit of a fact stands: its word, and the number in which just this bit is set.
// None where the fact is not below 512.
fn place(fact: Fact) -> Option<(usize, u64)>
    ensures { BitPlace fact.number result }
{
    if fact.number >= 512 {
        return None;
    }
    Some(((fact.number / 64) as usize, 1 << (fact.number % 64)))
}
