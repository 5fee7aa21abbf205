// The plant of an action table: which moves are allowed in a state, and which facts each adds and deletes.
// An operator has up to two parameters; a move is an operator with an object for each, numbered
// operator * 256 + first argument * 16 + second argument, where an argument that the operator lacks is 0.
#![tactic(auto)]

mod grounding;
mod moves;
pub mod plant;
