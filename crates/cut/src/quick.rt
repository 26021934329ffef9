// A question answered by a walk where that is enough: the cone of v with only those nodes inside that must be. Otherwise by the search.
ghost use Rattle.std.specs.Prelude.{◌≡◌, Bool, true, ℕ, ◌+◌, ◌<◌, ◌≤◌, IfSome, MatchOption, take};
ghost use Rattle.maps.specs.Sheet.{Sheet};
ghost use Rattle.rows.specs.Table.{Falling};
ghost use Rattle.cut.specs.Question.{AllowedCut, Fewest, Asked};
ghost use Rattle.cut.specs.Quick.{inside_mark, InsideMarked, AllLeaves};

use crate::search_cut;
use cone::cut_fits;
use flow::Code;
use rows::Graph;

// Whether a node must be inside, by its code.
fn inside_mark(code: Code) -> bool
    ensures { result ≡ inside_mark code }
{
    code == Code::Inner
}

// Marks the nodes below v that must be inside.
fn mark_inside(code: &[Code; 256], marks: &mut [bool; 256], v: u32)
    requires { v < 256 }
    ensures { InsideMarked code.now marks.new v }
{
    *marks = [false; 256];
    for u in 0..v as usize {
        marks[u] = inside_mark(code[u]);
    }
}

// Whether each of the first `count` ids may be a leaf, where none of them must be inside.
fn all_leaves(code: &[Code; 256], cut: &[u32; 8], count: u32) -> bool
    requires { count < 8 }
    ensures { result ≡ true → AllLeaves code.now cut.now count }
{
    for j in 0..count as usize {
        if cut[j] > 255 || code[cut[j] as usize] == Code::Barred {
            return false;
        }
    }
    true
}

// Writes an allowed cut of v with at most k leaves; how many it has, or none where there is none.
pub fn ask(graph: &Graph, code: &[Code; 256], cut: &mut [u32; 8], v: u32, k: u32) -> Option<u32>
    requires falling { Falling graph.now }
    requires v_bound { (v < 256) × (k < 8) }
    ensures most { IfSome result (λ count. count ≤ k) }
    ensures allowed { (S : Sheet) (may : ℕ → Bool) → Asked S may v graph.now code.now
        → MatchOption result (Fewest S may v k (k + 1)) (λ count. AllowedCut S may v (take count cut.new)) }
{
    let mut marks = [false; 256];
    mark_inside(code, &mut marks, v);
    if let Some(count) = cut_fits(graph, &marks, cut, v, k) {
        if all_leaves(code, cut, count) {
            return Some(count);
        }
    }
    search_cut(graph, code, cut, v, k)
}
