// The text of a schedule: its lines, each read as what it asks for.
#![tactic(auto)]

pub mod line;
mod verb;
