// The plant of a network: where its switches stand and where earths are placed, which sections are live then, and what
// each move does.
#![tactic(auto)]

pub mod action;
pub mod drawing;
pub mod moves;
pub mod plant;
pub mod positions;
pub mod reach;
pub mod sections;
pub mod start;
pub mod state;
