// Lists of calls (docs/CALLS.md) on standard input that are read and passed over: each function tells
// whether what it passed could be decoded.

#![tactic(auto)]

use text_input::STDIN_FILENO;

// A list of more things is taken for something that cannot be decoded.
const MAX_ITEMS: u64 = 4096;

// So is a build with more words of lookaheads.
const MAX_LOOKAHEAD_WORDS: u64 = 8192;

// The next word, where it is a number up to `most`.
fn read_count(most: u64) -> Option<u64> {
    text_input::read_word(STDIN_FILENO).filter(|count| *count <= most)
}

// A number, and then so many things of `width` words.
fn skip_items(width: u64) -> Option<()> {
    let count = read_count(MAX_ITEMS)?;
    for _ in 0..width {
        text_input::skip_words(STDIN_FILENO, count)?;
    }
    Some(())
}

// A number of words, and these words.
fn skip_lookaheads() -> Option<()> {
    let count = read_count(MAX_LOOKAHEAD_WORDS)?;
    text_input::skip_words(STDIN_FILENO, count)
}

// Process count and lookahead; ids, rows, destinations and their lookaheads.
pub fn skip_build() -> Option<()> {
    text_input::skip_words(STDIN_FILENO, 3)?;
    skip_items(1)?;
    skip_items(2)?;
    skip_items(1)?;
    skip_lookaheads()
}

// A plan: process count and lookahead; a number of places, of which there may be as many as of other
// things; entities.
fn skip_plan() -> Option<()> {
    text_input::skip_words(STDIN_FILENO, 3)?;
    read_count(MAX_ITEMS)?;
    skip_items(2)
}

// A hand back: the mask of failed processes, and the emissions.
fn skip_hand_back() -> Option<()> {
    text_input::skip_words(STDIN_FILENO, 1)?;
    skip_items(8)
}

// The arguments of a call. Kept as numbers: a tag is a word of the file, which is read nowhere else here.
pub fn skip_call(tag: u64) -> Option<()> {
    match tag {
        0 => text_input::skip_words(STDIN_FILENO, 7),
        1 => text_input::skip_words(STDIN_FILENO, 3),
        3 => skip_hand_back(),
        8 => skip_plan(),
        2 | 4 | 5 | 6 | 7 => Some(()),
        _ => None,
    }
}

// A number of calls, and the calls.
pub fn skip_calls() -> Option<()> {
    let count = text_input::read_word(STDIN_FILENO)?;
    for _ in 0..count {
        let tag = text_input::read_word(STDIN_FILENO)?;
        skip_call(tag)?;
    }
    Some(())
}
