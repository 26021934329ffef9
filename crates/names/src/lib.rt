// The names that a text has defined so far, found by hash.
#![tactic(auto)]

ghost use Rattle.std.specs.Prelude.{◌+◌, ◌<◌, ◌≤◌, ◌≡◌, false, [], ◌∷◌, ◌++◌, length, unwrap_or, IfSome};
ghost use Rattle.maps.specs.Limits.{size_range};
ghost use Rattle.maps.specs.Lists.{equal};
ghost use Rattle.blif.specs.Scan.{name_at};
ghost use Rattle.blif.specs.Names.{has};
ghost use Rattle.blif.specs.Limits.{name_most};
ghost use Rattle.blif.specs.Import.{id_of};
ghost use Rattle.names.specs.Table.{word_of, names_in, Listed};

use scan::{name_bytes, name_hash};

// How many names a table holds, how many bytes a name has at most, and how many lists there are.
const MOST_NAMES: usize = 256;

const MOST_BYTES: usize = 31;

const BUCKETS: usize = 512;

// A name: its hash, the id of the next one in its list, and its bytes.
#[derive(Clone, Copy)]
struct Entry {
    hash: u32,
    next: Option<u8>,
    size: u8,
    bytes: [u8; MOST_BYTES],
}

// Names, each at the place of its id, in lists by their hashes: the head of a list is the id of its latest name.
#[derive(Clone, Copy)]
pub struct Names {
    heads: [Option<u8>; BUCKETS],
    entries: [Entry; MOST_NAMES],
}

impl Entry {
    // The name that begins at a position, which is not too long.
    fn new(text: &[u8], at: usize, hash: u32, next: Option<u8>) -> Entry
        requires { length (name_at text.now at) ≤ name_most }
        ensures kept { (result.hash ≡ hash) × (result.next ≡ next) × (result.size ≤ name_most) }
        ensures bytes { word_of result ≡ name_at text.now at }
    {
        let mut bytes = [0; MOST_BYTES];
        let mut size: u8 = 0;
        for b in name_bytes(text, at) {
            bytes[usize::from(size)] = b;
            size += 1;
        }
        Entry {
            hash,
            next,
            size,
            bytes,
        }
    }

    // Whether the name that begins at a position is this one.
    fn is_at(&self, text: &[u8], at: usize) -> bool
        ensures { result ≡ equal (name_at text.now at) (word_of self.now) }
    {
        name_bytes(text, at).eq(self.bytes.iter().copied().take(usize::from(self.size)))
    }
}

impl Names {
    // A table of no names.
    pub fn new() -> Names
        ensures { Listed result 0 }
    {
        let none = Entry {
            hash: 0,
            next: None,
            size: 0,
            bytes: [0; MOST_BYTES],
        };
        Names {
            heads: [None; BUCKETS],
            entries: [none; MOST_NAMES],
        }
    }
}

// The id of the name that begins at a position, if the table has such a name.
pub fn id_of(text: &[u8], names: &Names, count: usize, at: usize) -> Option<usize>
    requires { Listed names.now count }
    ensures id { unwrap_or result count ≡ id_of (names_in names.now count) (name_at text.now at) }
    ensures known { IfSome result (λ i. i < count) }
{
    let hash = name_hash(text, at);
    let mut next = names.heads[hash as usize % BUCKETS];
    while let Some(i) = next {
        let id = usize::from(i);
        let entry = &names.entries[id];
        if entry.hash == hash && entry.is_at(text, at) {
            return Some(id);
        }
        next = entry.next;
    }
    None
}

// Puts the name that begins at a position, which is not in the table, at the head of its list.
pub fn add_name(text: &[u8], names: &mut Names, count: usize, at: usize)
    requires listed { Listed names.old count × (count < size_range.high) }
    requires at_len_bound { (length (name_at text.now at) ≤ name_most) × (has (names_in names.old count) (name_at text.now at) ≡ false) }
    ensures listed_2 { Listed names.new (count + 1) }
    ensures count_after { names_in names.new (count + 1) ≡ names_in names.old count ++ (name_at text.now at ∷ []) }
{
    let hash = name_hash(text, at);
    let bucket = hash as usize % BUCKETS;
    names.entries[count] = Entry::new(text, at, hash, names.heads[bucket]);
    names.heads[bucket] = Some(count as u8);
}
