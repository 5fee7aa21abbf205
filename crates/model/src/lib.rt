// The vocabulary shared by all layers: facts and literals, atoms with terms, the predicates and objects of a feeder,
// pictures (sets of facts) and goals.
#![tactic(auto)]

pub mod book;
pub mod fact;
pub mod facts;
pub mod goal;
pub mod numbering;
pub mod picture;
pub mod plant;
pub mod predicates;
pub mod term;
pub mod vocabulary;
pub mod wanted;
