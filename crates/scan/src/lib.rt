// The scanner: lines, words and names of a BLIF text, each found from a position in it.
#![tactic(auto)]

mod lines;
mod name;
mod skip;
mod stops;
mod words;

pub use lines::{after_line, line_count, line_number};
pub use name::{NameBytes, is_cover, name_bytes, name_hash, name_length, spells};
pub use skip::after_joins;
pub use stops::{ends_line, joins};
pub use words::{LineWords, after_blanks, after_word, count_words, line_ends, line_words};
