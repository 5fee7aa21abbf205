// Standard input, read as far as a record can reach.
ghost use Rattle.std.specs.Prelude.{◌≡◌, ◌≤◌, take, vec_len, IfOk, IfSome};

use std::alloc::Global;
use std::io;
use std::io::Read;

// How many bytes of the input are kept. A longer input is refused for what these bytes hold, whatever follows.
const KEPT: usize = 34532;

// The input, as far as it is kept.
pub(crate) fn take_in<R: Read>(heap: Global, input: &mut R) -> io::Result<Vec<u8>>
    ensures bound { IfOk result (λ v. vec_len v ≤ KEPT) }
    ensures front { IfOk result (λ v. IfSome (R.remaining input.old) (λ given. v.items ≡ take KEPT given)) }
{
    let mut bytes = Vec::new(heap);
    input.take(KEPT as u64).read_to_end(&mut bytes)?;
    // cuts nothing: by this line it is proved, for every reader, that no more bytes are kept
    bytes.truncate(KEPT);
    Ok(bytes)
}
