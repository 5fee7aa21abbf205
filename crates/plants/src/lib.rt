// The tables that plants are made of: action tables, whose operators have preconditions and effects, and networks of
// switches between sections. Their types carry all their rules, and constructors check these.
#![tactic(auto)]

pub mod actions;
pub mod literal;
pub mod make_actions;
pub mod make_network;
pub mod network;
pub mod operator;
