// The rule book of a chart: which step each picture leads to, and which runs never reach the broken step.
#![tactic(auto)]

pub mod book;
