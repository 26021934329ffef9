// Names, byte by byte: the joins inside a name are passed over.
ghost use Rattle.std.specs.Prelude.{◌≡◌, ◌||◌, eqb, length};
ghost use Rattle.std.specs.Iterator.{YieldsFirst, item_count};
ghost use Rattle.maps.specs.Lists.{equal};
ghost use Rattle.blif.specs.Scan.{name_at};
ghost use Rattle.blif.specs.Subset.{literals};
ghost use Rattle.scan.specs.Name.{bytes_left};
ghost use Rattle.scan.specs.Hash.{hash_with, hash_of};

use crate::skip::after_joins;
use crate::stops::ends_word;

// A hash of 32 bits, by the numbers of FNV-1: its start and its factor.
const HASH_START: u32 = 2166136261;

const HASH_FACTOR: u32 = 16777619;

// The bytes of the name that goes on at a position.
#[derive(Drop)]
pub struct NameBytes<'a> {
    text: &'a [u8],
    at: usize,
}

impl<'a> Iterator for NameBytes<'a> {
    type Item = u8;

    ghost next_gives = { YieldsFirst bytes_left };

    ghost remaining = { item_count bytes_left };

    fn next(&mut self) -> Option<u8> {
        self.at = after_joins(self.text, self.at);
        let b = *self.text.get(self.at)?;
        if ends_word(b) {
            return None;
        }
        self.at += 1;
        Some(b)
    }
}

// The bytes of the name at a position.
pub fn name_bytes(text: &[u8], at: usize) -> NameBytes<'_>
    ensures { bytes_left result ≡ name_at text.now at }
{
    NameBytes { text, at }
}

// Whether the name at a position is this word.
pub fn spells(text: &[u8], at: usize, word: &[u8]) -> bool
    ensures { result ≡ equal (name_at text.now at) word.now }
{
    name_bytes(text, at).eq(word.iter().copied())
}

// How many bytes the name at a position has.
pub fn name_length(text: &[u8], at: usize) -> usize
    ensures { result ≡ length (name_at text.now at) }
{
    name_bytes(text, at).count()
}

// One byte more in a hash.
fn hash_with(hash: u32, b: u8) -> u32
    ensures { result ≡ hash_with hash b }
{
    hash.wrapping_mul(HASH_FACTOR).wrapping_add(u32::from(b))
}

// The hash of the name at a position.
pub fn name_hash(text: &[u8], at: usize) -> u32
    ensures { result ≡ hash_of (name_at text.now at) }
{
    name_bytes(text, at).fold(HASH_START, hash_with)
}

// Whether a byte is a value that a row gives an input: 0, 1 or -.
fn is_literal(b: u8) -> bool
    ensures { result ≡ (eqb b 48 || eqb b 49 || eqb b 45) }
{
    matches!(b, b'0' | b'1' | b'-')
}

// Whether the name at a position has a 0, 1 or - for each input.
pub fn is_cover(text: &[u8], at: usize, inputs: usize) -> bool
    ensures { result ≡ literals inputs (name_at text.now at) }
{
    name_length(text, at) == inputs && name_bytes(text, at).all(is_literal)
}
