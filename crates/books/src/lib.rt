// The two kinds of rule tables: formulas about runs, written as tables of nodes, and charts, written as lines.
#![tactic(auto)]

pub mod chart;
pub mod charts;
mod fitting;
pub mod formula;
pub mod formulas;
pub mod line;
pub mod node;
mod scope;
mod uses;
mod variables;
