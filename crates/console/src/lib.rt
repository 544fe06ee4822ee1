// The console: the commands of `covasluk`, and what they print.
#![tactic(auto)]

pub mod commands;
pub mod print;
