ghost use Rattle.codec.specs.Writing.{Wrote, WroteAll};

use crate::coded::Coded;
use crate::list::encode_list;
use crate::writer::Writer;

impl<'a> Writer<'a> {
    // Writes some bytes behind what is written. None where there is no room for them.
    pub fn put(&mut self, bytes: &[u8]) -> Option<()>
        ensures { Wrote self.old bytes.now self.new result }
    {
        let end = self.at.checked_add(bytes.len())?;
        if end > self.out.len() {
            return None;
        }
        self.out[self.at..end].copy_from_slice(bytes);
        self.at = end;
        Some(())
    }

    // Writes the codes of some values. None where there is no room for them all.
    pub fn put_all<T: Coded<WIDTH>, const WIDTH: usize>(&mut self, items: &[T]) -> Option<()>
        ensures { WroteAll T.Coded.code T.Coded.proper WIDTH items.now self.old self.new result }
    {
        let size = WIDTH.checked_mul(items.len())?;
        let behind = self.at.checked_add(size)?;
        if behind > self.out.len() {
            return None;
        }
        encode_list(items, &mut self.out[self.at..behind])?;
        self.at = behind;
        Some(())
    }
}
