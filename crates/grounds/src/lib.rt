// Grounds 10 and 11 of a line: whether its names are as they may be, and whether it keeps the limits.
#![tactic(auto)]

ghost use Rattle.std.specs.Prelude.{◌≡◌, ◌⊎◌, ◌+◌, ◌≤◌, leb, length, take, drop};
ghost use Rattle.maps.specs.Lists.{all, keep};
ghost use Rattle.blif.specs.Scan.{words_at};
ghost use Rattle.blif.specs.Subset as Subset;
ghost use Rattle.blif.specs.Names.{has, defined, resolves as Resolves};
ghost use Rattle.blif.specs.Limits.{name_most, text_most, within_limits};
ghost use Rattle.names.specs.Table.{names_in, Listed};
ghost use Rattle.grounds.specs.Ground.{ground_number, fault_after};
ghost use Rattle.subset.specs.Meant.{statement_meant, Shaped, PartsOf};

use distinct::distinct_words;
use names::{Names, id_of};
use scan::{after_blanks, after_word, line_words, name_length};
use subset::{Parts, Statement, is_outside, parts_of, some_nodes};

// The limits: bytes of a name, operands of a node, nodes.
const NAME_MOST: usize = 31;

const OPERANDS_MOST: usize = 6;

const NODES_MOST: usize = 256;

// Where the words after the next k stand.
pub fn skip_words(text: &[u8], start: usize, k: usize) -> usize
    requires { k ≤ length (words_at text.now start) }
    ensures { words_at text.now result ≡ drop k (words_at text.now start) }
{
    let mut at = start;
    for _ in 0..k {
        at = after_word(text, after_blanks(text, at));
    }
    at
}

// How many of the next k words are names that are defined.
pub fn count_defined(text: &[u8], start: usize, k: usize, names: &Names, count: usize) -> usize
    requires { (k ≤ length (words_at text.now start)) × Listed names.now count }
    ensures { result ≡ length (keep (has (names_in names.now count)) (take k (words_at text.now start))) }
{
    let mut defined = 0;
    for first in line_words(text, start).take(k) {
        if id_of(text, names, count, first).is_some() {
            defined += 1;
        }
    }
    defined
}

// Whether the next k words are names of at most 31 bytes.
pub fn all_short(text: &[u8], start: usize, k: usize) -> bool
    requires { k ≤ length (words_at text.now start) }
    ensures { result ≡ all (λ w. leb (length w) name_most) (take k (words_at text.now start)) }
{
    for first in line_words(text, start).take(k) {
        if NAME_MOST < name_length(text, first) {
            return false;
        }
    }
    true
}

// Ground 10: whether a line reads only names that are defined, and defines only new ones, each once. Its words stand at `rest`.
pub fn resolves(text: &[u8], rest: usize, parts: Parts, names: &Names, count: usize) -> bool
    requires text_len_bound { (length text.now ≤ text_most) × Listed names.now count }
    requires defines_in_bounds { (parts.reads + parts.defines ≤ length (words_at text.now rest)) × ((parts.defines ≤ 1) ⊎ (parts.reads + parts.defines ≡ length (words_at text.now rest))) }
    ensures { (s : Subset.Statement) → PartsOf s (words_at text.now rest) parts
        → result ≡ Resolves (names_in names.now count) (defined s) }
{
    let after_reads = skip_words(text, rest, parts.reads);
    count_defined(text, rest, parts.reads, names, count) == parts.reads
        && count_defined(text, after_reads, parts.defines, names, count) == 0
        && (parts.defines < 2 || distinct_words(text, after_reads, parts.defines))
}

// Ground 11: whether a line keeps the limits where so many nodes stand before it.
pub fn within_limits(
    text: &[u8],
    rest: usize,
    statement: Statement,
    parts: Parts,
    nodes: usize,
) -> bool
    requires { (parts.names ≤ length (words_at text.now rest)) × Shaped statement (length (words_at text.now rest)) × (nodes ≤ 256) }
    ensures { PartsOf (statement_meant statement (words_at text.now rest)) (words_at text.now rest) parts
        → result ≡ within_limits nodes (statement_meant statement (words_at text.now rest)) }
{
    all_short(text, rest, parts.names)
        && parts.reads <= OPERANDS_MOST
        && parts.defines <= NODES_MOST - nodes
        && some_nodes(statement, nodes)
}

// The ground on which a line is faulty.
#[derive(Clone, Copy, Debug, PartialEq, Eq)]
pub enum Ground {
    Subset,
    Name,
    Limit,
}

// The first ground of a line, whose words after the first stand at `rest`: 9, 10, 11 in that order.
pub fn ground_of(
    text: &[u8],
    rest: usize,
    statement: Statement,
    count: usize,
    names: &Names,
    nodes: usize,
) -> Result<(), Ground>
    requires { (length text.now ≤ text_most) × (count ≡ length (words_at text.now rest)) × Shaped statement count × Listed names.now nodes }
    ensures { ground_number result ≡ fault_after (names_in names.now nodes) nodes (statement_meant statement (words_at text.now rest)) }
{
    if is_outside(statement) {
        return Err(Ground::Subset);
    }
    let parts = parts_of(statement, count);
    if !resolves(text, rest, parts, names, nodes) {
        return Err(Ground::Name);
    }
    if !within_limits(text, rest, statement, parts, nodes) {
        return Err(Ground::Limit);
    }
    Ok(())
}
