ghost use Rattle.std.specs.Prelude.{◌≡◌, ◌+◌, ◌≤◌, Decides, length};
ghost use Rattle.feeder.specs.Records.{arity_bytes};
ghost use Rattle.feeder.specs.Verdicts.{HasHeader, HasWords, KindWords, PartRead, Passed, Step, SuitWords};

use crate::header::{HEADER, Header, PlantKind};
use crate::refusal::ReadRefusal;
use codec::list::decode_table;
use codec::table::Table;
use model::vocabulary::{Arity, Vocabulary};
use plants::make_network::has_three_unary;

// Whether a vocabulary has the predicates that a kind of plant needs.
fn suits(kind: PlantKind, vocabulary: &Vocabulary) -> bool
    ensures { Decides result (KindWords kind vocabulary.now.arities) }
{
    match kind {
        PlantKind::Actions => true,
        PlantKind::Network => has_three_unary(vocabulary),
    }
}

// The vocabulary whose arities are these bytes.
fn words_of(header: &Header, bytes: &[u8]) -> Option<Vocabulary>
    ensures { PartRead (SuitWords header.now) arity_bytes bytes.now result }
{
    let arities: Table<Arity, 16> = decode_table(bytes)?;
    let vocabulary = Vocabulary::new(header.objects, arities.as_slice())?;
    suits(header.plant, &vocabulary).then_some(vocabulary)
}

// The objects and predicates: the fifth check.
pub(crate) fn read_words(bytes: &[u8], header: &Header) -> Result<Vocabulary, ReadRefusal>
    requires head { HasHeader bytes.now header.now }
    requires room { HEADER + header.now.predicates ≤ length bytes.now }
    requires before { Passed 5 bytes.now }
    ensures { Step bytes.now (HasWords bytes.now header.now) 6 result }
{
    let n = header.predicates as usize;
    words_of(header, &bytes[HEADER..HEADER + n]).ok_or(ReadRefusal::Predicates)
}
