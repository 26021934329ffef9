// The records as C hands them over: rows of six numbers for the nodes, of three for the differences and of three for the windows, and one array of
// operand ids.
#![tactic(auto)]

ghost use Rattle.std.specs.Prelude.{◌≡◌, ◌+◌, ◌/◌, ◌<◌, ◌≤◌, [], ◌∷◌, ◌++◌, length, take, set};
ghost use Rattle.maps.specs.Write.{code_of_weight};
ghost use Rattle.records.specs.Rows.{node_place, mark_place, difference_place, window_place, rows_in, node_row, row_numbers, difference_row, window_row, end_of, box_at, signed};

// How many numbers the row of a node has.
pub const NODE: usize = 6;

// Which of them is the output mark.
const OUTPUT: usize = 1;

// How many numbers the row of a difference has.
const DIFFERENCE: usize = 3;

// How many numbers the row of a window has.
const WINDOW: usize = 3;

// A node without its operands: kind, output mark, d, lat, where its operands end in the array of operand ids, and its q.
#[derive(Clone, Copy)]
pub struct NodeRow {
    pub kind: u32,
    pub output: u32,
    pub delay: u32,
    pub latency: u32,
    pub end: u32,
    pub clock: u32,
}

// A difference; w as the 32 bits of a signed number.
#[derive(Clone, Copy)]
pub struct DifferenceRow {
    pub from: u32,
    pub to: u32,
    pub weight: u32,
}

// A window: the box, and from which remainder of its step by the period to which.
#[derive(Clone, Copy)]
pub struct WindowRow {
    pub id: u32,
    pub from: u32,
    pub to: u32,
}

// A circuit as records: K, T, H, the rows of its nodes with the operand ids of all of them, those of its differences, the period and the rows of its
// windows.
#[derive(Clone, Copy)]
pub struct Records<'a> {
    pub leaves: u32,
    pub top: u32,
    pub horizon: u32,
    pub nodes: &'a [u32],
    pub operands: &'a [u32],
    pub differences: &'a [u32],
    pub period: u32,
    pub windows: &'a [u32],
}

// How many nodes there are.
pub fn node_count(nodes: &[u32]) -> usize
    ensures { result ≡ rows_in node_place nodes.now }
{
    nodes.len() / NODE
}

// How many differences there are.
pub fn difference_count(differences: &[u32]) -> usize
    ensures { result ≡ rows_in difference_place differences.now }
{
    differences.len() / DIFFERENCE
}

// How many windows there are.
pub fn window_count(windows: &[u32]) -> usize
    ensures { result ≡ rows_in window_place windows.now }
{
    windows.len() / WINDOW
}

// The row of node v.
pub fn node_at(nodes: &[u32], v: usize) -> NodeRow
    requires { node_place (v + 1) ≤ length nodes.now }
    ensures { result ≡ node_row nodes.now v }
{
    let row = &nodes[v * NODE..];
    NodeRow {
        kind: row[0],
        output: row[1],
        delay: row[2],
        latency: row[3],
        end: row[4],
        clock: row[5],
    }
}

// Stores a number behind the first `count`; how many there are with it.
pub fn append(numbers: &mut [u32], count: usize, x: u32) -> usize
    requires { count < length numbers.old }
    ensures { (result ≡ count + 1) × (take result numbers.new ≡ take count numbers.old ++ (x ∷ [])) × (length numbers.new ≡ length numbers.old) }
{
    numbers[count] = x;
    count + 1
}

// Stores the row of node v behind those of the nodes before it.
pub fn put_row(nodes: &mut [u32], v: usize, row: NodeRow)
    requires { node_place (v + 1) ≤ length nodes.old }
    ensures { (take (node_place (v + 1)) nodes.new ≡ take (node_place v) nodes.old ++ row_numbers row) × (length nodes.new ≡ length nodes.old) }
{
    let numbers = [
        row.kind,
        row.output,
        row.delay,
        row.latency,
        row.end,
        row.clock,
    ];
    nodes[v * NODE..(v + 1) * NODE].copy_from_slice(&numbers);
}

// Marks node v as an output.
pub fn mark_output(nodes: &mut [u32], v: usize)
    requires { node_place (v + 1) ≤ length nodes.old }
    ensures { nodes.new ≡ set nodes.old (mark_place v) 1 }
{
    nodes[v * NODE + OUTPUT] = 1;
}

// The row of difference j.
pub fn difference_at(differences: &[u32], j: usize) -> DifferenceRow
    requires { difference_place (j + 1) ≤ length differences.now }
    ensures { result ≡ difference_row differences.now j }
{
    let row = &differences[j * DIFFERENCE..];
    DifferenceRow {
        from: row[0],
        to: row[1],
        weight: row[2],
    }
}

// The row of window j.
pub fn window_at(windows: &[u32], j: usize) -> WindowRow
    requires { window_place (j + 1) ≤ length windows.now }
    ensures { result ≡ window_row windows.now j }
{
    let row = &windows[j * WINDOW..];
    WindowRow {
        id: row[0],
        from: row[1],
        to: row[2],
    }
}

// Whether v is the id of a box.
pub fn is_box(nodes: &[u32], v: u32) -> bool
    ensures { result ≡ box_at nodes.now v }
{
    let id = v as usize;
    id < node_count(nodes) && 2 <= node_at(nodes, id).kind
}

// Where the operands of node v end: not past the array.
pub fn end_of(nodes: &[u32], operands: &[u32], v: usize) -> usize
    requires { node_place (v + 1) ≤ length nodes.now }
    ensures { result ≡ end_of nodes.now operands.now (v + 1) }
{
    operands.len().min(node_at(nodes, v).end as usize)
}

// The code of the w with these bits: 2w, or -2w - 1 where w is negative.
pub fn code_of(bits: u32) -> u32
    ensures { result ≡ code_of_weight (signed bits) }
{
    if bits <= i32::MAX as u32 {
        2 * bits
    } else {
        2 * (u32::MAX - bits) + 1
    }
}
