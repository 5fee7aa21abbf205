ghost use Rattle.feeder.specs.Layouts.{LaidOut};
ghost use Rattle.feeder.specs.Verdicts.{HasHeader, Passed, Step};

use crate::header::{HEADER, Header, VERSION};
use crate::layout::Layout;
use crate::refusal::ReadRefusal;
use codec::coded::Coded;

// The header: the first three checks.
pub(crate) fn read_header(bytes: &[u8]) -> Result<Header, ReadRefusal>
    ensures { Step bytes.now (HasHeader bytes.now) 4 result }
{
    let front = bytes.first_chunk::<HEADER>().ok_or(ReadRefusal::Short)?;
    if front[0] != VERSION {
        return Err(ReadRefusal::Version);
    }
    Header::from_array(front).ok_or(ReadRefusal::Header)
}

// The places of the parts: the fourth check.
pub(crate) fn read_layout(bytes: &[u8], header: &Header) -> Result<Layout, ReadRefusal>
    requires head { HasHeader bytes.now header.now }
    requires before { Passed 4 bytes.now }
    ensures { Step bytes.now (LaidOut header.now bytes.now) 5 result }
{
    Layout::new(header, bytes).ok_or(ReadRefusal::Length)
}
