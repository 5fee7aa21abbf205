// Text for the programs, written into a buffer of the caller.
// A buffer that is too short is refused and stays as it was.
#![tactic(auto)]

pub mod refusal;
pub mod text;
