// A Pickup, a Transport and two maps as a question has them, and a Transport as an answer line has
// it: what the programs on bars, on the transport and on cues share. The form is docs/QUESTIONS.md.
//
// As in `asking`, no function has a `requires`: a word past the end of a question is 0.
#![tactic(auto)]

mod maps;
mod transports;
mod writing;

pub use maps::{meter_ends, past_meter, past_tempo};
pub use transports::{is_flag, is_transport, pickup_at, transport_of};
pub use writing::{handed_line, more_transport};

// The words of a transport, which is the first of what a question asks.
pub const TRANSPORT: usize = 17;
