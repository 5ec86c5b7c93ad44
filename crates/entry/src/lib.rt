// The outer entries: the desk's state is lent to a call and amended there.
#![tactic(auto)]

pub mod apply;
pub mod lodge;
pub mod open;
