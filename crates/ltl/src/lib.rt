// Linear temporal logic over pictures: truth at a position of a run, progression through a picture, and what is known of a
// formula at each position, as masks.
#![tactic(auto)]

pub mod classes;
pub mod laws;
pub mod masks;
