// Whether the words of one line are all different. Their positions are sorted by merging; a word that comes twice meets itself in a merge.
#![tactic(auto)]

ghost use Rattle.std.specs.Prelude.{◌+◌, ◌≤◌, ◌<◌, ◌≡◌, true, [], ◌++◌, length, take, drop};
ghost use Rattle.blif.specs.Names.{fresh};
ghost use Rattle.blif.specs.Scan.{name_at, words_at};
ghost use Rattle.distinct.specs.Sorting.{order, names, Ascending, Sorted, Heads};

use scan::{after_joins, line_ends, line_words, name_bytes};
use std::cmp::Ordering;

// The byte that begins a comment.
const COMMENT: u8 = b'#';

// How many bytes a text has at most, how many words can stand in it, and how many of them are few.
const MOST_BYTES: usize = 65536;

const MOST_WORDS: usize = 32768;

const FEW_WORDS: usize = 256;

// Why words are not sorted: one of them comes twice.
#[derive(Clone, Copy)]
struct Repeated;

// The order of the names at two positions.
pub fn compare(text: &[u8], a: usize, b: usize) -> Ordering
    ensures { result ≡ order (name_at text.now a) (name_at text.now b) }
{
    name_bytes(text, a).cmp(name_bytes(text, b))
}

// The order of the words at places i and j of two lists, of which not both have ended there.
fn heads(text: &[u8], xs: &[u16], ys: &[u16], i: usize, j: usize) -> Ordering
    requires { (j ≤ length ys.now) × (i + j < length xs.now + length ys.now) }
    ensures { Heads text.now xs.now ys.now i j result }
{
    match (xs.get(i), ys.get(j)) {
        (Some(a), Some(b)) => compare(text, usize::from(*a), usize::from(*b)),
        (Some(_), None) => Ordering::Less,
        (None, _) => Ordering::Greater,
    }
}

// Merges two ascending lists into `out`, unless they have a word in common.
fn merge(text: &[u8], xs: &[u16], ys: &[u16], out: &mut [u16]) -> Result<(), Repeated>
    requires ys_in_bounds { length xs.now + length ys.now ≤ length out.old }
    requires ascending { Ascending (names text.now xs.now) × Ascending (names text.now ys.now) }
    ensures { (length out.new ≡ length out.old)
        × Sorted (names text.now xs.now ++ names text.now ys.now)
        (names text.now (take (length xs.now + length ys.now) out.new)) result }
{
    let mut i: usize = 0;
    for k in 0..xs.len() + ys.len() {
        let j = k - i;
        match heads(text, xs, ys, i, j) {
            Ordering::Equal => return Err(Repeated),
            Ordering::Less => {
                out[k] = xs[i];
                i += 1;
            }
            Ordering::Greater => out[k] = ys[j],
        }
    }
    Ok(())
}

// Copies as many elements as `to` has. `copy_from_slice` is compiled to memmove here, a name that the archive for C does not need from outside.
fn copy(from: &[u16], to: &mut [u16])
    requires { length to.old ≤ length from.now }
    ensures { to.new ≡ take (length to.old) from.now }
{
    for i in 0..to.len() {
        to[i] = from[i];
    }
}

// Merges the parts of a list before `half` and from it on, both ascending, into `out`.
fn merge_parts(text: &[u8], words: &[u16], half: usize, out: &mut [u16]) -> Result<(), Repeated>
    requires half_in_bounds { (half ≤ length words.now) × (length words.now ≤ length out.old) }
    requires ascending { Ascending (names text.now (take half words.now)) × Ascending (names text.now (drop half words.now)) }
    ensures { (length out.new ≡ length out.old)
        × Sorted (names text.now words.now) (names text.now (take (length words.now) out.new)) result }
{
    merge(text, &words[..half], &words[half..], out)
}

// Merges the parts of a list within it, by way of `room`.
fn merge_within(
    text: &[u8],
    words: &mut [u16],
    half: usize,
    room: &mut [u16],
) -> Result<(), Repeated>
    requires half_in_bounds { (half ≤ length words.old) × (length words.old ≤ length room.old) }
    requires ascending { Ascending (names text.now (take half words.old)) × Ascending (names text.now (drop half words.old)) }
    ensures { (length words.new ≡ length words.old)
        × (length room.new ≡ length room.old)
        × Sorted (names text.now words.old) (names text.now words.new) result }
{
    merge_parts(text, words, half, room)?;
    copy(room, words);
    Ok(())
}

// Sorts words, unless one of them comes twice.
fn sort(text: &[u8], words: &mut [u16], room: &mut [u16]) -> Result<(), Repeated>
    requires { length words.old ≤ length room.old }
    ensures { (length words.new ≡ length words.old)
        × (length room.new ≡ length room.old)
        × Sorted (names text.now words.old) (names text.now words.new) result }
{
    if words.len() < 2 {
        return Ok(());
    }
    let half = words.len() / 2;
    sort(text, &mut words[..half], room)?;
    sort(text, &mut words[half..], room)?;
    merge_within(text, words, half, room)
}

// The positions of the words of a line.
fn collect(text: &[u8], start: usize, words: &mut [u16])
    requires text_len_bound { length text.now ≤ 65536 }
    requires words_len { length words.old ≡ length (words_at text.now start) }
    ensures { names text.now words.new ≡ words_at text.now start }
{
    for (i, first) in line_words(text, start).enumerate() {
        words[i] = first as u16;
    }
}

// Whether the words of a line are all different; `words` has a place for each.
fn distinct_in(text: &[u8], at: usize, words: &mut [u16], room: &mut [u16]) -> bool
    requires text_len_bound { length text.now ≤ 65536 }
    requires words_len { (length words.old ≡ length (words_at text.now at)) × (length words.old ≤ length room.old) }
    ensures { result ≡ fresh [] (words_at text.now at) }
{
    collect(text, at, words);
    sort(text, words, room).is_ok()
}

// Whether the words of a line, `count` of them, are all different; there may be more places.
fn distinct_within(
    text: &[u8],
    at: usize,
    count: usize,
    words: &mut [u16],
    room: &mut [u16],
) -> bool
    requires text_len_bound { (length text.now ≤ 65536) × (count ≡ length (words_at text.now at)) }
    requires count_in_bounds { (count ≤ length words.old) × (count ≤ length room.old) }
    ensures { result ≡ fresh [] (words_at text.now at) }
{
    distinct_in(text, at, &mut words[..count], room)
}

// The same with places for few words.
fn distinct_few(text: &[u8], at: usize, count: usize) -> bool
    requires text_len_bound { (length text.now ≤ 65536) × (count ≡ length (words_at text.now at)) }
    requires count_bound { count ≤ 256 }
    ensures { result ≡ fresh [] (words_at text.now at) }
{
    let mut words = [0; FEW_WORDS];
    let mut room = [0; FEW_WORDS];
    distinct_within(text, at, count, &mut words, &mut room)
}

// Copies a line without its joins, and the byte of a comment after it, unless it is too long. A comparison takes a step for each join that it passes,
// so without the copy one word with many joins could cost all its bytes in the comparison with each other word.
fn unjoin(text: &[u8], start: usize, line: &mut [u8]) -> bool
    ensures { (length line.new ≡ length line.old)
        × (result ≡ true → words_at line.new 0 ≡ words_at text.now start) }
{
    let mut at = start;
    for place in line.iter_mut() {
        at = after_joins(text, at);
        if line_ends(text, at) {
            *place = COMMENT;
            return true;
        }
        *place = text[at];
        at += 1;
    }
    false
}

// Whether the words of a line are all different, by its copy without joins. A line that fills the copy has no join.
fn distinct_unjoined(
    text: &[u8],
    at: usize,
    count: usize,
    line: &mut [u8],
    words: &mut [u16],
    room: &mut [u16],
) -> bool
    requires text_len_bound { (length text.now ≤ 65536) × (count ≡ length (words_at text.now at)) }
    requires line_len_bound { (length line.old ≤ 65536) × (count ≤ length words.old) × (count ≤ length room.old) }
    ensures { result ≡ fresh [] (words_at text.now at) }
{
    if unjoin(text, at, line) {
        distinct_within(line, 0, count, words, room)
    } else {
        distinct_within(text, at, count, words, room)
    }
}

// The same with places for as many words as a text can have.
fn distinct_many(text: &[u8], at: usize, count: usize) -> bool
    requires text_len_bound { (length text.now ≤ 65536) × (count ≡ length (words_at text.now at)) }
    requires count_bound { count ≤ 32768 }
    ensures { result ≡ fresh [] (words_at text.now at) }
{
    let mut line = [0; MOST_BYTES];
    let mut words = [0; MOST_WORDS];
    let mut room = [0; MOST_WORDS];
    distinct_unjoined(text, at, count, &mut line, &mut words, &mut room)
}

// Whether the words of the line from `at` on, `count` of them, are all different.
pub fn distinct_words(text: &[u8], at: usize, count: usize) -> bool
    requires { (length text.now ≤ 65536) × (count ≡ length (words_at text.now at)) }
    ensures { result ≡ fresh [] (words_at text.now at) }
{
    if count <= FEW_WORDS {
        distinct_few(text, at, count)
    } else {
        distinct_many(text, at, count)
    }
}
