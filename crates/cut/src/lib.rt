// Minimum cuts from flows: the marks of a search that failed are a cut, whose leaves are those that were entered and are not inside.
#![tactic(auto)]

ghost use Rattle.std.specs.Prelude.{◌≡◌, Bool, ℕ, ◌+◌, ◌<◌, ◌≤◌, IfSome, MatchOption, unwrap_or, length, take};
ghost use Rattle.maps.specs.Sheet.{Sheet, is_logic};
ghost use Rattle.types.specs.Code.{kind_meant};
ghost use Rattle.rows.specs.Table.{Falling};
ghost use Rattle.flow.specs.Search.{Flow, Settled, Final, Turned, leaf_mark, rising};
ghost use Rattle.cut.specs.Question.{AllowedCut, Fewest, Best, code_for, Asked};

use flow::{Code, augment, expand};
use rows::Graph;
use types::Kind;

mod quick;

pub use quick::ask;

// The code of a node other than v.
pub fn code_for(kind: Kind, may: bool) -> Code
    ensures { result ≡ code_for (is_logic (kind_meant kind)) may }
{
    match (kind, may) {
        (Kind::Logic, false) => Code::Inner,
        (Kind::Logic, true) => Code::Either,
        (Kind::Input | Kind::Box { .. }, true) => Code::Outer,
        (Kind::Input | Kind::Box { .. }, false) => Code::Barred,
    }
}

// Whether x is a leaf of the marks: entered from above and not inside.
fn is_leaf(seen: &[bool; 512], x: u32) -> bool
    requires { x < 256 }
    ensures { result ≡ leaf_mark seen.now x }
{
    let i = x as usize;
    !seen[i] && seen[i + 256]
}

// Searches on from x, if it is a leaf of the marks, and keeps the new marks where that search fails.
fn turn(
    graph: &Graph,
    code: &[Code; 256],
    seen: &mut [bool; 512],
    above: &[u32; 256],
    seen2: &mut [bool; 512],
    above2: &mut [u32; 256],
    x: u32,
)
    requires falling { Falling graph.now }
    requires flow { Flow graph.now code.now above.now }
    requires x_bound { x < 256 }
    ensures { Turned graph.now code.now seen.old seen.new above.now x }
{
    if !is_leaf(seen, x) {
        return;
    }
    *seen2 = *seen;
    *above2 = *above;
    if !expand(graph, code, seen2, above2, x, x) {
        *seen = *seen2;
    }
}

// Takes inside every leaf that can be without more leaves, ids falling: the minimum cut nearest the inputs.
fn deepen(
    graph: &Graph,
    code: &[Code; 256],
    seen: &mut [bool; 512],
    above: &[u32; 256],
    seen2: &mut [bool; 512],
    above2: &mut [u32; 256],
    v: u32,
)
    requires falling { Falling graph.now }
    requires flow { Flow graph.now code.now above.now }
    requires v_bound { v < 256 }
    ensures { (f : ℕ) → Settled graph.now code.now seen.old above.now v f → Final graph.now code.now seen.new above.now v f }
{
    for x in (0..v).rev() {
        turn(graph, code, seen, above, seen2, above2, x);
    }
}

// Writes the leaves of the marks, ids rising; their number.
fn collect(seen: &[bool; 512], cut: &mut [u32; 8]) -> u32
    requires { length (rising (leaf_mark seen.now) 256) ≤ 8 }
    ensures { (result ≡ length (rising (leaf_mark seen.now) 256)) × (take result cut.new ≡ rising (leaf_mark seen.now) 256) }
{
    let mut n: u32 = 0;
    for x in 0..256u32 {
        if is_leaf(seen, x) {
            cut[n as usize] = x;
            n += 1;
        }
    }
    n
}

// Writes an allowed cut of v with at most k leaves, by augmenting paths; how many it has, or none where there is none.
fn search_cut(graph: &Graph, code: &[Code; 256], cut: &mut [u32; 8], v: u32, k: u32) -> Option<u32>
    requires falling { Falling graph.now }
    requires v_bound { (v < 256) × (k < 8) }
    ensures most { IfSome result (λ count. count ≤ k) }
    ensures allowed { (S : Sheet) (may : ℕ → Bool) → Asked S may v graph.now code.now
        → MatchOption result (Fewest S may v k (k + 1)) (λ count. AllowedCut S may v (take count cut.new)) }
{
    let mut seen = [false; 512];
    let mut above = [0u32; 256];
    augment(graph, code, &mut seen, &mut above, v, k)?;
    Some(collect(&seen, cut))
}

// Writes the chosen one of the allowed cuts of v; how many leaves it has, or none where no allowed cut has at most k leaves.
pub fn choose(graph: &Graph, code: &[Code; 256], cut: &mut [u32; 8], v: u32, k: u32) -> Option<u32>
    requires falling { Falling graph.now }
    requires v_bound { (v < 256) × (k ≤ 8) }
    ensures most { IfSome result (λ count. count ≤ k) }
    ensures chosen { (S : Sheet) (may : ℕ → Bool) → Asked S may v graph.now code.now
        → IfSome result (λ count. Best S may v (take count cut.new)) × Fewest S may v k (unwrap_or result (k + 1)) }
{
    let mut seen = [false; 512];
    let mut above = [0u32; 256];
    augment(graph, code, &mut seen, &mut above, v, k)?;
    let mut seen2 = [false; 512];
    let mut above2 = [0u32; 256];
    deepen(graph, code, &mut seen, &above, &mut seen2, &mut above2, v);
    Some(collect(&seen, cut))
}
