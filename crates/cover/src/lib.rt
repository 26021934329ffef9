// Used nodes and chosen cuts, for any legal labels.
#![tactic(auto)]

ghost use Rattle.std.specs.Prelude.{◌≡◌, true, ℕ, ◌+◌, ◌<◌, ◌≤◌, IfSome, unwrap_or, take, List};
ghost use Rattle.maps.specs.Limits.{leaves_range};
ghost use Rattle.maps.specs.Lists.{All};
ghost use Rattle.maps.specs.Sheet.{Sheet, size};
ghost use Rattle.maps.specs.Cut.{logic_node};
ghost use Rattle.maps.specs.Legal.{CarryingCut};
ghost use Rattle.maps.specs.Least.{at};
ghost use Rattle.maps.specs.Cover.{chosen_cut};
ghost use Rattle.rows.specs.Table.{Falling};
ghost use Rattle.bound.specs.Lookup.{Soon, labels_in, count_of};
ghost use Rattle.bound.specs.Going.{Given};
ghost use Rattle.cover.specs.Cover.{Covered, Rows, operands_of, row_of};
ghost use Rattle.cover.specs.Covering.{used_in, MarkedAll, SoundCount, Written, Laid, Picked, CoverFrom};

use bound::Labels;
use cut::choose;
use flow::Code;
use level::{Cuts, codes};
use rows::{Graph, Header, count_in, kind_in, operand_in, output_in};
use types::{Kind, Level};

// Whether v is used: an output, a box, or marked already.
fn is_used(graph: &Graph, used: &[bool; 256], v: u32) -> bool
    requires { v < 256 }
    ensures { result ≡ used_in graph.now used.now v }
{
    output_in(graph, v) || matches!(kind_in(graph, v), Kind::Box { .. }) || used[v as usize]
}

// Marks the operands of v.
fn mark_operands(graph: &Graph, used: &mut [bool; 256], v: u32)
    requires falling { Falling graph.now }
    requires v_bound { v < 256 }
    ensures { MarkedAll (operands_of graph.now v) used.old used.new }
{
    for j in 0..count_in(graph, v) {
        used[operand_in(graph, v, j) as usize] = true;
    }
}

// Marks the leaves in the row of v.
fn mark_leaves(cuts: &Cuts, used: &mut [bool; 256], v: u32)
    requires v_bound { v < 256 }
    requires row { (count_of cuts.now v ≤ leaves_range.high) × All (λ u. u < 256) (row_of cuts.now v) }
    ensures { MarkedAll (row_of cuts.now v) used.old used.new }
{
    for j in 0..cuts.leaf_count_in(v) {
        used[cuts.leaf_in(v, j) as usize] = true;
    }
}

// How many numbers of a cut are kept: all that were found, or none where one of them is no id.
fn sound_count(cut: &[u32; 8], found: Option<u32>) -> u32
    requires { IfSome found (λ n. n ≤ leaves_range.high) }
    ensures { SoundCount cut.now (unwrap_or found (leaves_range.high + 1)) leaves_range.high result }
{
    match found {
        Some(n) if cut[..n as usize].iter().all(|u| *u < 256) => n,
        _ => 0,
    }
}

// Writes the cut that was found into the row of v; no leaves where there is none.
fn store_cut(cut: &[u32; 8], cuts: &mut Cuts, v: u32, found: Option<u32>)
    requires v_bound { v < 256 }
    requires found_bound { IfSome found (λ n. n ≤ leaves_range.high) }
    ensures v_after { IfSome found (λ n. All (λ u. u < 256) (take n cut.now) → row_of cuts.new v ≡ take n cut.now) }
    ensures written { Written v cuts.old cuts.new }
{
    cuts.keep_cut(cut, v, sound_count(cut, found));
}

// Writes the chosen cut of v; how many leaves it has, or none where no fitting cut carries the label of v.
fn choose_cut(
    graph: &Graph,
    limits: Header,
    labels: &Labels,
    cut: &mut [u32; 8],
    v: u32,
) -> Option<u32>
    requires falling { Falling graph.now }
    requires v_bound { (v < 256) × (limits.leaves ≤ leaves_range.high) }
    requires by_index { (u : ℕ) → u < v → Soon graph.now labels.now.steps u }
    ensures most { IfSome result (λ n. n ≤ limits.leaves) }
    ensures picked { (S : Sheet) → Laid S graph.now labels.now.steps labels.now.levels limits → v < size S → logic_node S v ≡ true
        → Picked S (labels_in (size S) labels.now.steps labels.now.levels) v limits.leaves (unwrap_or result (limits.leaves + 1)) cut.new }
{
    let mut code = [Code::Inner; 256];
    let by = labels.label_of(v);
    codes(graph, labels, &mut code, v, Level(limits.top), by);
    choose(graph, &code, cut, v, limits.leaves)
}

// Writes the chosen cut of v into its row.
fn write_cut(graph: &Graph, limits: Header, labels: &Labels, cuts: &mut Cuts, v: u32)
    requires falling { Falling graph.now }
    requires v_bound { (v < 256) × (limits.leaves ≤ leaves_range.high) }
    requires by_index { (u : ℕ) → u < v → Soon graph.now labels.now.steps u }
    ensures v_after { (S : Sheet) → Laid S graph.now labels.now.steps labels.now.levels limits → v < size S → logic_node S v ≡ true
        → row_of cuts.new v ≡ chosen_cut S (labels_in (size S) labels.now.steps labels.now.levels) v }
    ensures written { Written v cuts.old cuts.new }
{
    let mut cut = [0u32; 8];
    let found = choose_cut(graph, limits, labels, &mut cut, v);
    store_cut(&cut, cuts, v, found);
}

// The turn of node v: if it is used, its mark, what it needs, and its row.
fn cover_node(
    graph: &Graph,
    limits: Header,
    labels: &Labels,
    used: &mut [bool; 256],
    cuts: &mut Cuts,
    v: u32,
)
    requires falling { Falling graph.now }
    requires v_bound { (v < 256) × (limits.leaves ≤ leaves_range.high) }
    requires by_index { (u : ℕ) → u < v → Soon graph.now labels.now.steps u }
    requires rows { Rows 256 used.old cuts.old }
    ensures cover_from { (S : Sheet) → Laid S graph.now labels.now.steps labels.now.levels limits → v < size S
        → CoverFrom S (labels_in (size S) labels.now.steps labels.now.levels) (v + 1) used.old cuts.old
        → CoverFrom S (labels_in (size S) labels.now.steps labels.now.levels) v used.new cuts.new }
    ensures rows_2 { Rows 256 used.new cuts.new }
{
    if !is_used(graph, used, v) {
        return;
    }
    used[v as usize] = true;
    match kind_in(graph, v) {
        Kind::Input => {}
        Kind::Box { .. } => mark_operands(graph, used, v),
        Kind::Logic => {
            write_cut(graph, limits, labels, cuts, v);
            mark_leaves(cuts, used, v);
        }
    }
}

// Marks the used nodes among n, and writes the chosen cut of each used logic node into its row.
pub fn cover(
    graph: &Graph,
    limits: Header,
    labels: &Labels,
    used: &mut [bool; 256],
    cuts: &mut Cuts,
)
    requires falling { Falling graph.now }
    requires nodes_bound { (limits.nodes ≤ 256) × (limits.leaves ≤ leaves_range.high) }
    requires by_index { (u : ℕ) → u < limits.nodes → Soon graph.now labels.now.steps u }
    ensures covered { (S : Sheet) (differences : List ℕ) → Given S graph.now differences limits
        → ((v : ℕ) → v < size S → logic_node S v ≡ true → CarryingCut S (at (labels_in (size S) labels.now.steps labels.now.levels)) v)
        → Covered S (labels_in (size S) labels.now.steps labels.now.levels) used.new cuts.new }
    ensures rows { Rows limits.nodes used.new cuts.new }
{
    *used = [false; 256];
    *cuts = Cuts::new();
    for v in (0..limits.nodes).rev() {
        cover_node(graph, limits, labels, used, cuts, v);
    }
}
