// Numbers and beats as text in lent bytes.
#![tactic(auto)]

mod page;

pub use page::Page;
