// Submit: a version of a point's series is delivered. Book and log follow.
#![tactic(auto)]

pub mod call;
pub mod conditions;
