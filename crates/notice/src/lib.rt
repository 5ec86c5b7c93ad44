// Notice: a positive or negative word on a version that was delivered. Book and log follow.
#![tactic(auto)]

pub mod call;
pub mod conditions;
