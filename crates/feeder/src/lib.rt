// Feeder records: the bytes in which a utility keeps a feeder, read, checked and written back.
#![tactic(auto)]

pub mod header;
mod heading;
pub mod layout;
mod operators;
mod plant;
mod put;
pub mod read;
mod reading;
pub mod record;
pub mod refusal;
mod rules;
mod start;
pub mod tables;
mod words;
pub mod write;
