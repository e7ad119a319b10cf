// The rules of a line's calls: which are refused and why, what an accepted one answers, and how it counts.
#![tactic(auto)]

pub mod machine;
pub mod refusal;
pub mod state;
