// The lines of a text and the words of a line, by their places.
#![tactic(auto)]

pub mod found;
pub mod scan;
