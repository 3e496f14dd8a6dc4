// What the transforms of patterns do to lists of notes: each note changed, lists joined, a part cut
// out, notes made from numbers. Callers have tested their words and have the room.
#![tactic(auto)]

pub mod changing;
pub mod cutting;
pub mod joining;
pub mod making;
pub mod steps;
