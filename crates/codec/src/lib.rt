// Values of a fixed width in bytes: one interface for all kinds of them, tables of them, and their bytes read and written.
#![tactic(auto)]

pub mod blank;
pub mod coded;
pub mod list;
pub mod table;
pub mod writer;
pub mod writing;
