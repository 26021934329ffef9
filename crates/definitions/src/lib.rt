// The definitions of a line, kept behind those of the lines before.
#![tactic(auto)]

ghost use Rattle.std.specs.Prelude.{◌≡◌, true, false, List, [], ◌∷◌, ◌++◌, map, ℕ, ◌+◌, ◌*◌, ◌<◌, ◌≤◌, leb, length, get_or, take, drop};
ghost use Rattle.maps.specs.Lists.{all};
ghost use Rattle.maps.specs.Limits.{size_range, operands_most};
ghost use Rattle.types.specs.Code.{kind_meant};
ghost use Rattle.blif.specs.Words.{Word};
ghost use Rattle.blif.specs.Scan.{words_at};
ghost use Rattle.blif.specs.Names.{Definition, definition, kind_of, names_of, has, fresh, defined, inputs_of};
ghost use Rattle.blif.specs.Limits.{name_most};
ghost use Rattle.blif.specs.Import.{id_of};
ghost use Rattle.records.specs.Rows.{node_place};
ghost use Rattle.names.specs.Table.{names_in, Listed};
ghost use Rattle.subset.specs.Meant.{statement_meant, Shaped};
ghost use Rattle.definitions.specs.Rows.{row_meant};
ghost use Rattle.definitions.specs.Kept.{KeptIn, Added, AddedTo, Lawful};

use names::{Names, add_name, id_of};
use records::{NodeRow, append, put_row};
use scan::{after_blanks, after_word};
use subset::Statement;
use types::{Kind, Level, Step};

// The kind of a `.latch`: a box whose lat is 1 and whose q is 0.
const LATCH: Kind = Kind::Box {
    latency: Step(1),
    clock_to_q: Level(0),
};

// How many nodes and operands are kept.
#[derive(Clone, Copy, Debug, PartialEq, Eq)]
pub struct Size {
    pub nodes: usize,
    pub operands: usize,
}

// What is kept so far: the names, a row for each node, the ids of the operands, and how many nodes and operands there are.
#[derive(Drop)]
pub struct Circuit {
    pub names: Names,
    pub nodes: [u32; 1536],
    pub operands: [u32; 1536],
    pub size: Size,
}

impl Circuit {
    // Nothing is kept yet.
    pub fn new() -> Circuit
        ensures { (d : ℕ) → KeptIn d [] result }
    {
        Circuit {
            names: Names::new(),
            nodes: [0; 1536],
            operands: [0; 1536],
            size: Size {
                nodes: 0,
                operands: 0,
            },
        }
    }
}

// The row of a node that is not marked, where a table takes `delay` levels and the operands end at `end`.
pub fn row_of(kind: Kind, delay: u32, end: u32) -> NodeRow
    ensures { result ≡ row_meant delay (kind_meant kind) end }
{
    let input = NodeRow {
        kind: 0,
        output: 0,
        delay: 0,
        latency: 0,
        end,
        clock: 0,
    };
    match kind {
        Kind::Input => input,
        Kind::Logic => NodeRow {
            kind: 1,
            delay,
            ..input
        },
        Kind::Box {
            latency,
            clock_to_q,
        } => NodeRow {
            kind: 2,
            latency: latency.0,
            clock: clock_to_q.0,
            ..input
        },
    }
}

// Appends the ids of the next `reads` words to the first `used` operands; where the words after them stand.
pub fn append_reads(
    text: &[u8],
    start: usize,
    reads: usize,
    names: &Names,
    count: usize,
    operands: &mut [u32],
    used: usize,
) -> usize
    requires { (reads ≤ length (words_at text.now start)) × Listed names.now count × (used + reads ≤ length operands.old) }
    ensures result_value { words_at text.now result ≡ drop reads (words_at text.now start) }
    ensures operands_after { (take (used + reads) operands.new ≡ take used operands.old ++ map (id_of (names_in names.now count)) (take reads (words_at text.now start)))
        × (length operands.new ≡ length operands.old) }
{
    let mut at = start;
    for i in 0..reads {
        let first = after_blanks(text, at);
        let id = id_of(text, names, count, first).unwrap_or(count);
        append(operands, used + i, id as u32);
        at = after_word(text, first);
    }
    at
}

// Keeps the definition whose operands are the next `reads` words, and whose name is the word after them; where the words after that stand.
pub fn keep_node(
    text: &[u8],
    start: usize,
    reads: usize,
    kind: Kind,
    delay: u32,
    names: &mut Names,
    nodes: &mut [u32],
    operands: &mut [u32],
    size: Size,
) -> usize
    requires reads_in_bounds { (reads < length (words_at text.now start)) × (length (get_or (words_at text.now start) reads []) ≤ name_most) × Listed names.old size.nodes × (size.nodes < size_range.high) }
    requires reads_value { has (names_in names.old size.nodes) (get_or (words_at text.now start) reads []) ≡ false }
    requires nodes_in_bounds { (node_place (size.nodes + 1) ≤ length nodes.old) × (size.operands + reads ≤ length operands.old) × (size.operands + reads ≤ size_range.high * operands_most) }
    ensures result_value { words_at text.now result ≡ drop (reads + 1) (words_at text.now start) }
    ensures added { Added delay (definition (get_or (words_at text.now start) reads []) (kind_meant kind) (take reads (words_at text.now start)))
        names.old nodes.old operands.old size.nodes size.operands names.new nodes.new operands.new }
{
    let n = size.nodes;
    let used = size.operands;
    let rest = append_reads(text, start, reads, names, n, operands, used);
    let first = after_blanks(text, rest);
    add_name(text, names, n, first);
    put_row(nodes, n, row_of(kind, delay, (used + reads) as u32));
    after_word(text, first)
}

// The same, of what is kept so far, and one node more with its operands counted.
fn keep_next(
    text: &[u8],
    start: usize,
    reads: usize,
    kind: Kind,
    delay: u32,
    circuit: &mut Circuit,
) -> usize
    requires reads_in_bounds { (reads < length (words_at text.now start)) × (length (get_or (words_at text.now start) reads []) ≤ name_most) × Listed circuit.old.names circuit.old.size.nodes × (circuit.old.size.nodes < size_range.high) }
    requires reads_value { has (names_in circuit.old.names circuit.old.size.nodes) (get_or (words_at text.now start) reads []) ≡ false }
    requires nodes_in_bounds { (node_place (circuit.old.size.nodes + 1) ≤ length circuit.old.nodes) × (circuit.old.size.operands + reads ≤ length circuit.old.operands) × (circuit.old.size.operands + reads ≤ size_range.high * operands_most) }
    ensures result_value { words_at text.now result ≡ drop (reads + 1) (words_at text.now start) }
    ensures added { AddedTo delay (definition (get_or (words_at text.now start) reads []) (kind_meant kind) (take reads (words_at text.now start))) circuit.old circuit.new }
    ensures size { (circuit.new.size.nodes ≡ circuit.old.size.nodes + 1) × (circuit.new.size.operands ≡ circuit.old.size.operands + reads) }
{
    let size = circuit.size;
    let rest = keep_node(
        text,
        start,
        reads,
        kind,
        delay,
        &mut circuit.names,
        &mut circuit.nodes,
        &mut circuit.operands,
        size,
    );
    circuit.size = Size {
        nodes: size.nodes + 1,
        operands: size.operands + reads,
    };
    rest
}

// Keeps inputs, whose names are the next k words.
pub fn keep_inputs(text: &[u8], start: usize, k: usize, delay: u32, circuit: &mut Circuit)
    requires k_in_bounds { (k ≤ length (words_at text.now start)) × (all (λ w. leb (length w) name_most) (take k (words_at text.now start)) ≡ true) × (circuit.old.size.nodes + k ≤ size_range.high) }
    requires kept { (ds : List Definition) × KeptIn delay ds circuit.old × (fresh (names_of ds) (take k (words_at text.now start)) ≡ true) }
    ensures { (ds : List Definition) → KeptIn delay ds circuit.old → fresh (names_of ds) (take k (words_at text.now start)) ≡ true
        → KeptIn delay (ds ++ inputs_of (take k (words_at text.now start))) circuit.new }
{
    let mut at = start;
    for _ in 0..k {
        at = keep_next(text, at, 0, Kind::Input, delay, circuit);
    }
}

// Keeps the one node that a line defines.
pub fn keep_one(
    text: &[u8],
    rest: usize,
    reads: usize,
    kind: Kind,
    delay: u32,
    circuit: &mut Circuit,
)
    requires reads_in_bounds { (reads < length (words_at text.now rest)) × (length (get_or (words_at text.now rest) reads []) ≤ name_most) × (circuit.old.size.nodes < size_range.high) × (reads ≤ operands_most) }
    requires kept { (ds : List Definition) × KeptIn delay ds circuit.old × (has (names_of ds) (get_or (words_at text.now rest) reads []) ≡ false) }
    ensures { (ds : List Definition) → KeptIn delay ds circuit.old
        → all (has (names_of ds)) (take reads (words_at text.now rest)) ≡ true → has (names_of ds) (get_or (words_at text.now rest) reads []) ≡ false
        → KeptIn delay (ds ++ (definition (get_or (words_at text.now rest) reads []) (kind_meant kind) (take reads (words_at text.now rest)) ∷ [])) circuit.new }
{
    keep_next(text, rest, reads, kind, delay, circuit);
}

// The kind of a `.names` that reads so many names.
pub fn kind_of(reads: usize) -> Kind
    ensures { (us : List Word) → length us ≡ reads → kind_meant result ≡ kind_of us }
{
    match reads {
        0 => Kind::Input,
        _ => Kind::Logic,
    }
}

// Keeps what a line without fault defines.
pub fn keep_line(
    text: &[u8],
    rest: usize,
    statement: Statement,
    count: usize,
    delay: u32,
    circuit: &mut Circuit,
)
    requires count_value { (count ≡ length (words_at text.now rest)) × Shaped statement count }
    requires kept { (ds : List Definition) × KeptIn delay ds circuit.old × Lawful ds (statement_meant statement (words_at text.now rest)) }
    ensures { (ds : List Definition) → KeptIn delay ds circuit.old → Lawful ds (statement_meant statement (words_at text.now rest))
        → KeptIn delay (ds ++ defined (statement_meant statement (words_at text.now rest))) circuit.new }
{
    match statement {
        Statement::Inputs => keep_inputs(text, rest, count, delay, circuit),
        Statement::Names => keep_one(text, rest, count - 1, kind_of(count - 1), delay, circuit),
        Statement::Latch => keep_one(text, rest, 1, LATCH, delay, circuit),
        Statement::Model
        | Statement::Outputs
        | Statement::Row
        | Statement::End
        | Statement::Outside => {}
    }
}
