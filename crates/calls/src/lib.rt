// The calls open, activate, deactivate, status, assign, show, close and issue. The state goes in by value and comes back.
#![tactic(auto)]

pub mod activate;
pub mod assign;
pub mod close;
pub mod deactivate;
pub mod issue;
pub mod open;
pub mod show;
pub mod status;
