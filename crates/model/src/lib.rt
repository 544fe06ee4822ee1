// The engine's rules as definitions: its state, what each call does to it, and the three promises over every run.
#![tactic(auto)]

pub mod answer;
