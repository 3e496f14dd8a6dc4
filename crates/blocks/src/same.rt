// What is compared.

// The words from a up to e; none where there are not all of them.
pub fn between(s: &[u64], a: usize, e: usize) -> &[u64] {
    if a > e || e > s.len() {
        return &s[..0];
    }
    &s[a..e]
}

// A word of a cue: the first of two is its time, which is so much later in the whole.
fn later(word: u64, k: usize, time: u64) -> u64 {
    if k % 2 == 0 {
        word.wrapping_add(time)
    } else {
        word
    }
}

// Whether the cues of a block, with their times from the run's beginning, are the whole's.
pub fn cues(whole: &[u64], part: &[u64], time: u64) -> bool {
    whole.len() == part.len()
        && whole
            .iter()
            .zip(part)
            .enumerate()
            .all(|(k, (word, own))| *word == later(*own, k, time))
}
