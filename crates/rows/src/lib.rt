// The sheet as the code holds it: its header, and two flat tables. Where each number of a node and of a difference stands is known here alone.
#![tactic(auto)]

ghost use Rattle.std.specs.Prelude.{◌≡◌, [], ◌∷◌, ◌+◌, ◌≤◌, ◌<◌, eqb, length};
ghost use Rattle.maps.specs.Sheet.{latency_of, clock_to_q_of};
ghost use Rattle.maps.specs.WellFormed.{code_of};
ghost use Rattle.maps.specs.Read.{kind_of};
ghost use Rattle.types.specs.Code.{kind_meant};
ghost use Rattle.rows.specs.Code.{head_meant, difference_meant};
ghost use Rattle.rows.specs.Table.{mark_of, store_from, head_row, difference_row, window_row, node_place, operand_place, window_place, difference_place, open_in, closing, kind_in, kind_at, mark_in, delay_in, latency_in, clock_in, count_in, operand_in, from_in, to_in, plus_in, minus_in};

use types::{Kind, Level, Node, Step};

// K, T, H, n, m; P and the count of entries.
#[derive(Clone, Copy, Debug, PartialEq, Eq)]
pub struct Header {
    pub leaves: u32,
    pub top: u32,
    pub horizon: u32,
    pub nodes: u32,
    pub differences: u32,
    pub period: u32,
    pub windows: u32,
}

// A row for each of 256 nodes: kind, mark, d, lat, q, operand count, the operands, and from and to of its window, 0 and 0 where it has none.
pub type Graph = [u32; 4096];

// A row for each of 1,024 differences: from, to, plus, minus.
pub type Differences = [u32; 4096];

// The two tables of a sheet.
#[derive(Clone, Copy)]
pub struct Tables {
    pub graph: Graph,
    pub differences: Differences,
}

impl Tables {
    // No row in either table: all numbers are 0.
    pub const EMPTY: Tables = Tables {
        graph: [0; 4096],
        differences: [0; 4096],
    };
}

// The numbers of a node's row, and where each stands in it; the kind stands first.
const NODE: usize = 16;

const MARK: usize = 1;

const DELAY: usize = 2;

const LATENCY: usize = 3;

const CLOCK: usize = 4;

const COUNT: usize = 5;

const OPERANDS: usize = 6;

const WINDOW: usize = 12;

// The same of a difference; its u stands first.
const DIFFERENCE: usize = 4;

const TO: usize = 1;

const PLUS: usize = 2;

const MINUS: usize = 3;

// A difference (u, v, w): w is plus - minus.
#[derive(Clone, Copy, Debug, PartialEq, Eq)]
pub struct Difference {
    pub from: u32,
    pub to: u32,
    pub plus: u32,
    pub minus: u32,
}

// The remainders of steps by the period in which a node may start: from `from` on and below `to`.
#[derive(Clone, Copy, Debug, PartialEq, Eq)]
pub struct Window {
    pub from: u32,
    pub to: u32,
}

// The kind that a code in the sheet stands for; every code from 2 on is a box's.
pub fn kind_of(code: u32, latency: u32, q: u32) -> Kind
    ensures { kind_meant result ≡ kind_of code latency q }
{
    match code {
        0 => Kind::Input,
        1 => Kind::Logic,
        _ => Kind::Box {
            latency: Step(latency),
            clock_to_q: Level(q),
        },
    }
}

pub fn code_of(kind: Kind) -> u32
    ensures { result ≡ code_of (kind_meant kind) }
{
    match kind {
        Kind::Input => 0,
        Kind::Logic => 1,
        Kind::Box { .. } => 2,
    }
}

pub fn latency_of(kind: Kind) -> u32
    ensures { result ≡ latency_of (kind_meant kind) }
{
    match kind {
        Kind::Input | Kind::Logic => 0,
        Kind::Box { latency, .. } => latency.0,
    }
}

pub fn clock_to_q_of(kind: Kind) -> u32
    ensures { result ≡ clock_to_q_of (kind_meant kind) }
{
    match kind {
        Kind::Input | Kind::Logic => 0,
        Kind::Box { clock_to_q, .. } => clock_to_q.0,
    }
}

pub fn mark_of(output: bool) -> u32
    ensures { result ≡ mark_of output }
{
    u32::from(output)
}

// Stores the numbers of node v before its operand ids.
pub fn store_head(graph: &mut [u32], v: u32, node: Node)
    requires { node_place (v + 1) ≤ length graph.old }
    ensures { graph.new ≡ store_from graph.old (node_place v) (head_row (head_meant node)) }
{
    let base = v as usize * NODE;
    graph[base] = code_of(node.kind);
    graph[base + MARK] = mark_of(node.output);
    graph[base + DELAY] = node.delay.0;
    graph[base + LATENCY] = latency_of(node.kind);
    graph[base + CLOCK] = clock_to_q_of(node.kind);
    graph[base + COUNT] = node.operands;
}

// Stores the operand j of node v.
pub fn store_operand(graph: &mut [u32], v: u32, j: u32, id: u32)
    requires { operand_place v + j < length graph.old }
    ensures { graph.new ≡ store_from graph.old (operand_place v + j) (id ∷ []) }
{
    let base = v as usize * NODE;
    graph[base + OPERANDS + j as usize] = id;
}

// Stores the window of node v.
pub fn store_window(graph: &mut [u32], v: u32, window: Window)
    requires { node_place (v + 1) ≤ length graph.old }
    ensures { graph.new ≡ store_from graph.old (window_place v) (window_row window.from window.to) }
{
    let base = v as usize * NODE + WINDOW;
    graph[base] = window.from;
    graph[base + 1] = window.to;
}

// Stores the difference i.
pub fn store_difference(table: &mut [u32], i: u32, difference: Difference)
    requires { difference_place (i + 1) ≤ length table.old }
    ensures { table.new ≡ store_from table.old (difference_place i) (difference_row (difference_meant difference)) }
{
    let base = i as usize * DIFFERENCE;
    table[base] = difference.from;
    table[base + TO] = difference.to;
    table[base + PLUS] = difference.plus;
    table[base + MINUS] = difference.minus;
}

// The code of node v's kind.
pub fn code_in(graph: &[u32], v: u32) -> u32
    requires { node_place v < length graph.now }
    ensures { result ≡ kind_in graph.now v }
{
    graph[v as usize * NODE]
}

// The kind of node v.
pub fn kind_in(graph: &Graph, v: u32) -> Kind
    requires { v < 256 }
    ensures { kind_meant result ≡ kind_at graph.now v }
{
    let base = v as usize * NODE;
    kind_of(graph[base], graph[base + LATENCY], graph[base + CLOCK])
}

// Whether node v is an output.
pub fn output_in(graph: &Graph, v: u32) -> bool
    requires { v < 256 }
    ensures { result ≡ eqb (mark_in graph.now v) 1 }
{
    graph[v as usize * NODE + MARK] == 1
}

// The delay d of node v.
pub fn delay_in(graph: &Graph, v: u32) -> Level
    requires { v < 256 }
    ensures { result.0 ≡ delay_in graph.now v }
{
    Level(graph[v as usize * NODE + DELAY])
}

// The latency lat of node v.
pub fn latency_in(graph: &Graph, v: u32) -> Step
    requires { v < 256 }
    ensures { result.0 ≡ latency_in graph.now v }
{
    Step(graph[v as usize * NODE + LATENCY])
}

// The clock-to-Q level q of node v.
pub fn clock_to_q_in(graph: &Graph, v: u32) -> Level
    requires { v < 256 }
    ensures { result.0 ≡ clock_in graph.now v }
{
    Level(graph[v as usize * NODE + CLOCK])
}

// How many operands node v has.
pub fn count_in(graph: &Graph, v: u32) -> u32
    requires { v < 256 }
    ensures { result ≡ count_in graph.now v }
{
    graph[v as usize * NODE + COUNT]
}

// The operand j of node v.
pub fn operand_in(graph: &Graph, v: u32, j: u32) -> u32
    requires { (v < 256) × (j < 6) }
    ensures { result ≡ operand_in graph.now v j }
{
    graph[v as usize * NODE + OPERANDS + j as usize]
}

// The window of node v; where it has no entry, the whole period.
pub fn window_in(graph: &Graph, v: u32, period: u32) -> Window
    requires { v < 256 }
    ensures { (result.from ≡ open_in graph.now v) × (result.to ≡ closing graph.now period v) }
{
    let base = v as usize * NODE + WINDOW;
    let from = graph[base];
    match graph[base + 1] {
        0 => Window { from, to: period },
        to => Window { from, to },
    }
}

// The difference i.
pub fn difference_in(differences: &Differences, i: u32) -> Difference
    requires { i < 1024 }
    ensures { (result.from ≡ from_in differences.now i) × (result.to ≡ to_in differences.now i) × (result.plus ≡ plus_in differences.now i) × (result.minus ≡ minus_in differences.now i) }
{
    let base = i as usize * DIFFERENCE;
    Difference {
        from: differences[base],
        to: differences[base + TO],
        plus: differences[base + PLUS],
        minus: differences[base + MINUS],
    }
}
