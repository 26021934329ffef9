// The lines of the text: where the next one begins, and their numbers.
ghost use Rattle.std.specs.Prelude.{◌+◌, ◌≤◌, ◌<◌, ◌≡◌, length, take, drop};
ghost use Rattle.blif.specs.Lines.{lines};
ghost use Rattle.blif.specs.Scan.{from, ends_line, past, past_line, newlines};

use crate::skip::skip;
use crate::stops::{NEWLINE, ends_line};

// Where the joined line ends: at its byte 10 or its comment.
fn line_end(text: &[u8], start: usize) -> usize
    ensures { (drop result text.now ≡ from ends_line (drop start text.now)) × (start ≤ result) }
{
    skip(text, start, ends_line)
}

// The position after the next byte 10.
fn after_newline(text: &[u8], start: usize) -> usize
    ensures { (drop result text.now ≡ past (drop start text.now)) × (start ≤ result) × (start < length text.now → start < result) }
{
    for at in start..text.len() {
        if text[at] == NEWLINE {
            return at + 1;
        }
    }
    start.max(text.len())
}

// Where the next line begins, after the joined line from here on and its comment.
pub fn after_line(text: &[u8], start: usize) -> usize
    ensures { (drop result text.now ≡ past_line (drop start text.now)) × (start < length text.now → start < result) }
{
    let end = line_end(text, start);
    after_newline(text, end)
}

// How many bytes 10 stand before a position.
fn newline_count(text: &[u8], end: usize) -> usize
    requires { end ≤ length text.now }
    ensures { (result ≡ newlines (take end text.now)) × (result ≤ end) }
{
    text[..end].iter().filter(|b| **b == NEWLINE).count()
}

// The number of the line that a position stands on.
pub fn line_number(text: &[u8], at: usize) -> usize
    requires { at ≤ length text.now }
    ensures { result ≡ 1 + newlines (take at text.now) }
{
    1 + newline_count(text, at)
}

// How many lines the text has: its last one may have no byte 10.
pub fn line_count(text: &[u8]) -> usize
    ensures { result ≡ length (lines text.now) }
{
    let ended = newline_count(text, text.len());
    match text.last() {
        Some(b) if *b != NEWLINE => ended + 1,
        _ => ended,
    }
}
