// The words of a line, from position to position.
ghost use Rattle.std.specs.Prelude.{◌≤◌, ◌<◌, ◌≡◌, length, drop};
ghost use Rattle.std.specs.Iterator.{item_count};
ghost use Rattle.blif.specs.Scan.{from, ends_word, ends_blanks, at_line_end, words_at};
ghost use Rattle.scan.specs.WordByWord.{words_left, NextWord};

use crate::skip::skip;
use crate::stops::{ends_line, ends_word, is_blank};

// Where blanks and joins end.
pub fn after_blanks(text: &[u8], start: usize) -> usize
    ensures { (drop result text.now ≡ from ends_blanks (drop start text.now)) × (start ≤ result) }
{
    skip(text, start, |b| !is_blank(b))
}

// Where the word that begins here, or went on to here, ends.
pub fn after_word(text: &[u8], start: usize) -> usize
    ensures { (drop result text.now ≡ from ends_word (drop start text.now)) × (start ≤ result) }
{
    skip(text, start, ends_word)
}

// Whether a line has no more words at a position after blanks.
pub fn line_ends(text: &[u8], at: usize) -> bool
    ensures { result ≡ at_line_end (drop at text.now) }
{
    text.get(at).is_none_or(|b| ends_line(*b))
}

// The words of a line from a position on, each by the position where it begins.
#[derive(Drop)]
pub struct LineWords<'a> {
    text: &'a [u8],
    at: usize,
}

impl<'a> Iterator for LineWords<'a> {
    type Item = usize;

    ghost next_gives = { NextWord };

    ghost remaining = { item_count words_left };

    fn next(&mut self) -> Option<usize> {
        let first = after_blanks(self.text, self.at);
        if line_ends(self.text, first) {
            return None;
        }
        self.at = after_word(self.text, first);
        Some(first)
    }
}

// The words of the line from a position on.
pub fn line_words(text: &[u8], at: usize) -> LineWords<'_>
    ensures text { result.text.now ≡ text.now }
    ensures left { words_left result ≡ words_at text.now at }
{
    LineWords { text, at }
}

// How many words the line has from here on.
pub fn count_words(text: &[u8], start: usize) -> usize
    ensures { result ≡ length (words_at text.now start) }
{
    line_words(text, start).count()
}
