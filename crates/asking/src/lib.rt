// Questions from standard input, and answer lines to standard output: what every program that
// answers questions shares. The form of both is docs/QUESTIONS.md.
//
// No function here asks anything of a question: past its end a word is 0, a list is empty, and what comes
// after a list that is cut is `None`. So a program owes no proof for a question that is malformed, and tests
// once whether its words are those of the op.
#![tactic(auto)]

mod beat;
mod fields;
mod lists;
mod reading;
mod writing;

pub use beat::{beat_at, more_beat};
pub use fields::{f32_at, f64_at, i64_at, u32_at, u64_at};
pub use lists::{
    i64s, lend, longs, mark_u32s, mark_u64s, part, past, past_longs, past_words, u64s, words,
};
pub use reading::answer_all;
pub use writing::{
    Answers, answer_line, answered, end_line, first, flush, more, more_all, refusal, refused,
    unknown,
};

// Bytes of input that are held at once: a multiple of 4, so that no word lies across two chunks.
pub const CHUNK: usize = 65536;

// Bytes of output that are held at once.
pub const HELD: usize = 65536;

// The most words behind the op and the count of a question that is answered.
pub const MOST: usize = 262400;

// The most elements of a list. Of a meter map's flat words an element is a point, three words.
pub const LIST: usize = 65537;

// The most elements of a lent output.
pub const ROOM: usize = 65540;
