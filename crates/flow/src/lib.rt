// Augmenting paths. A question about a logic node v gives each node below v a code, and v itself the code of a node that must be inside.
// A unit of flow goes from v down through nodes that are inside, and leaves at a leaf; each leaf carries one unit. `above[x]` is the node
// from which x is reached with a unit, or x where it carries none. `seen` marks what a search has met: at u that u is inside, at u + 256
// that u was entered from above.
#![tactic(auto)]

ghost use Rattle.std.specs.Prelude.{◌≡◌, ◌⊎◌, ℕ, ◌+◌, ◌<◌, ◌≤◌, IfSome, unwrap_or, get_or};
ghost use Rattle.rows.specs.Cells.{cell};
ghost use Rattle.rows.specs.Table.{count_in, operand_in, Falling};
ghost use Rattle.flow.specs.declared.Code.TheVariants.{Inner};
ghost use Rattle.flow.specs.Search.{Startable, Under, Link, Searched, Seen, Entered, Augmented};

use rows::{Graph, count_in, operand_in};

// What a question lets a node be: inside alone; inside or a leaf; a leaf alone; or neither.
#[derive(Clone, Copy, Debug, PartialEq, Eq)]
pub enum Code {
    Inner,
    Either,
    Outer,
    Barred,
}

// Searches on from p, which is inside, for a unit that leaves `from`: down to the operands of p, then back along the unit that p carries.
#[cycle(enter_expand_scan)]
pub fn expand(
    graph: &Graph,
    code: &[Code; 256],
    seen: &mut [bool; 512],
    above: &mut [u32; 256],
    p: u32,
    from: u32,
) -> bool
    requires startable { Startable graph.now code.now seen.old above.old p from }
    requires under { Under graph.now code.now from p }
    requires fact { (p ≡ from) ⊎ (get_or code.now p Inner ≡ Inner) }
    ensures { Searched result graph.now code.now seen.old seen.new above.old above.new from
        (Seen seen.new p) }
{
    let i = p as usize;
    match code[i] {
        Code::Outer | Code::Barred => true,
        Code::Inner | Code::Either => {
            if seen[i] {
                return false;
            }
            seen[i] = true;
            scan(graph, code, seen, above, p, from)
                || above[i] != p && enter(graph, code, seen, above, p, p)
        }
    }
}

// Enters the operands of p.
#[cycle(enter_expand_scan)]
fn scan(
    graph: &Graph,
    code: &[Code; 256],
    seen: &mut [bool; 512],
    above: &mut [u32; 256],
    p: u32,
    from: u32,
) -> bool
    requires startable { Startable graph.now code.now seen.old above.old p from }
    requires under { Under graph.now code.now from p }
    ensures { Searched result graph.now code.now seen.old seen.new above.old above.new from
        ((i : ℕ) → i < count_in graph.now p → Entered code.now seen.new (operand_in graph.now p i)) }
{
    for j in 0..count_in(graph, p) {
        if enter(graph, code, seen, above, operand_in(graph, p, j), from) {
            return true;
        }
    }
    false
}

// Enters x from above, with a unit that leaves `from`. A unit that x carries already must find another way.
#[cycle(enter_expand_scan)]
fn enter(
    graph: &Graph,
    code: &[Code; 256],
    seen: &mut [bool; 512],
    above: &mut [u32; 256],
    x: u32,
    from: u32,
) -> bool
    requires startable { Startable graph.now code.now seen.old above.old x from }
    requires link { Link graph.now code.now from x }
    ensures { Searched result graph.now code.now seen.old seen.new above.old above.new from
        (Entered code.now seen.new x) }
{
    let i = x as usize;
    match code[i] {
        Code::Barred => true,
        Code::Inner => !seen[i] && expand(graph, code, seen, above, x, from),
        Code::Either | Code::Outer => {
            let m = i + 256;
            if seen[m] {
                return false;
            }
            seen[m] = true;
            let q = above[i];
            if expand(graph, code, seen, above, q, q) {
                above[i] = from;
                return true;
            }
            false
        }
    }
}

// The empty flow: each node names itself.
fn start(above: &mut [u32; 256])
    ensures { (i : ℕ) → i < 256 → cell above.new i ≡ i }
{
    for i in 0..256u32 {
        above[i as usize] = i;
    }
}

// Sends units from v along augmenting paths, until a search fails; the number of units then, or none where k + 1 units flow.
pub fn augment(
    graph: &Graph,
    code: &[Code; 256],
    seen: &mut [bool; 512],
    above: &mut [u32; 256],
    v: u32,
    k: u32,
) -> Option<u32>
    requires falling { Falling graph.now }
    requires v_bound { (v < 256) × (k < 256) }
    ensures most { IfSome result (λ units. units ≤ k) }
    ensures augmented { Augmented graph.now code.now seen.new above.new v k (unwrap_or result (k + 1)) }
{
    start(above);
    for units in 0..=k {
        *seen = [false; 512];
        if !expand(graph, code, seen, above, v, v) {
            return Some(units);
        }
    }
    None
}
