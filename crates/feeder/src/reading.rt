ghost use Rattle.feeder.specs.Layouts.{LaidOut};
ghost use Rattle.feeder.specs.Verdicts.{HasHeader, HasWords};

use crate::header::Header;
use crate::layout::Layout;
use model::vocabulary::Vocabulary;

// A record that is being read, with what the first five checks found: its header, the places of its parts, and its
// objects and predicates.
// What suits the record differs from part to part, so each part has a function that says it.
#[derive(Clone, Copy)]
pub(crate) struct Reading<'a> {
    pub(crate) bytes: &'a [u8],
    pub(crate) header: Header,
    pub(crate) layout: Layout,
    pub(crate) vocabulary: Vocabulary,
    // which checks passed is not kept: that grows from check to check, and each asks for those before it
    ghost head: { HasHeader bytes.now header },
    ghost laid: { LaidOut header bytes.now layout },
    ghost words: { HasWords bytes.now header vocabulary },
}
