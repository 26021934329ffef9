// The cone of a node inside marked nodes: the walk that finds it, and the test whether its cut fits.
// A marked node may be a member. `part` holds what the walk has met. Ids fall from a node to
// its operands, and each member's operands are walked once. `spare` is how many more leaves make the cut too wide: at 0 the walk is over.
#![tactic(auto)]

ghost use Rattle.std.specs.Prelude.{ℕ, ◌+◌, ◌<◌, ◌≤◌, ◌≡◌, ⊤, IfSome, unwrap_or, length, take};
ghost use Rattle.maps.specs.Limits.{operands_most};
ghost use Rattle.maps.specs.Sheet.{Sheet};
ghost use Rattle.rows.specs.Table.{Falling};
ghost use Rattle.cone.specs.Walk.{marked, Question, FitTest};
ghost use Rattle.cone.specs.Looks.{Looked};
ghost use Rattle.cone.specs.Part.{Lent, VisitEnds, OperandsEnd, WalkEnds, leaves_below};
ghost use Rattle.cone.specs.Room.{in_end, looks_most};

use rows::{Graph, count_in, operand_in};

// What a walk has met of a node: nothing, or a member of the cone, or a leaf.
#[derive(Clone, Copy)]
pub enum Part {
    Unmet,
    Member,
    Leaf,
}

// What the walk tells of each operand that it looks at.
pub trait Tally {
    // That so many were looked at.
    ghost counts: { Self → ℕ → Type 0 };

    // How many at the most.
    ghost most: { Self → ℕ };

    // One more is looked at.
    fn look(&mut self)
        requires { most self.old < looks_most }
        ensures room { most self.new ≤ most self.old + 1 }
        ensures counted { (n : ℕ) → counts self.old n → counts self.new (n + 1) };
}

// A tally that is not kept.
#[derive(Clone, Copy)]
pub struct Untold;

impl Tally for Untold {
    ghost counts = { λ s n. ⊤ };

    ghost most = { λ s. 0 };

    fn look(&mut self) {}
}

// Meets u, which a member reads: as a leaf, or as a member with its operands. A node that is met stays as it is. How many leaves are spare then.
#[cycle(visit_visit_operands)]
fn visit<T: Tally>(
    graph: &Graph,
    marks: &[bool; 256],
    part: &mut [Part; 256],
    tally: &mut T,
    u: u32,
    spare: u32,
) -> u32
    requires lent { Lent graph.now part.old u }
    requires spare_nonzero { 0 < spare }
    requires room { in_end (T.most tally.old) part.old ≤ looks_most }
    ensures part_len { (length part.new ≡ 256) × (result ≤ spare) × (in_end (T.most tally.new) part.new ≤ in_end (T.most tally.old) part.old) }
    ensures visit_ends { VisitEnds graph.now marks.now part.old part.new (T.counts tally.old) (T.counts tally.new) spare result u }
{
    let i = u as usize;
    match part[i] {
        Part::Member | Part::Leaf => spare,
        Part::Unmet => {
            if marks[i] {
                part[i] = Part::Member;
                visit_operands(graph, marks, part, tally, u, spare)
            } else {
                part[i] = Part::Leaf;
                spare - 1
            }
        }
    }
}

// Meets the operands of the member u, until no leaf is spare. How many are then.
#[cycle(visit_visit_operands)]
fn visit_operands<T: Tally>(
    graph: &Graph,
    marks: &[bool; 256],
    part: &mut [Part; 256],
    tally: &mut T,
    u: u32,
    spare: u32,
) -> u32
    requires lent { Lent graph.now part.old u }
    requires spare_nonzero { 0 < spare }
    requires room { in_end (T.most tally.old) part.old + operands_most ≤ looks_most }
    ensures part_len { (length part.new ≡ 256) × (result ≤ spare) × (in_end (T.most tally.new) part.new ≤ in_end (T.most tally.old) part.old + operands_most) }
    ensures operands_end { OperandsEnd graph.now marks.now part.old part.new (T.counts tally.old) (T.counts tally.new) spare result u }
{
    let mut left = spare;
    for j in 0..count_in(graph, u) {
        tally.look();
        left = visit(graph, marks, part, tally, operand_in(graph, u, j), left);
        if left == 0 {
            return left;
        }
    }
    left
}

// Finds the cone of v inside the marks, and its leaves, until no leaf is spare. How many are then.
pub fn walk<T: Tally>(
    graph: &Graph,
    marks: &[bool; 256],
    part: &mut [Part; 256],
    tally: &mut T,
    v: u32,
    spare: u32,
) -> u32
    requires falling { Falling graph.now }
    requires v_bound { v < 256 }
    requires spare_nonzero { 0 < spare }
    requires none { T.counts tally.old 0 }
    requires room { T.most tally.old ≡ 0 }
    ensures upper_bound { result ≤ spare }
    ensures walk_ends { WalkEnds graph.now marks.now v spare part.new (T.counts tally.new) result }
{
    *part = [Part::Unmet; 256];
    part[v as usize] = Part::Member;
    visit_operands(graph, marks, part, tally, v, spare)
}

// Lists the leaves below v, ascending, where there are `count`.
pub fn leaves(part: &[Part; 256], cut: &mut [u32; 8], v: u32, count: u32)
    requires { (v < 256) × (count ≤ 8) }
    ensures { length (leaves_below part.now v) ≡ count → take count cut.new ≡ leaves_below part.now v }
{
    *cut = [0; 8];
    let mut n: u32 = 0;
    for i in 0..v {
        if let Part::Leaf = part[i as usize] {
            cut[n as usize] = i;
            n += 1;
            if count <= n {
                return;
            }
        }
    }
}

// The test whether the cut of the cone of v inside the marks fits: the number of its leaves, which `cut` then lists,
// or none where it has more than k. `tally` is told of each operand that is looked at: those up to and with the one at which leaf k + 1 is met,
// or all of the cone's.
pub fn fits<T: Tally>(
    graph: &Graph,
    marks: &[bool; 256],
    cut: &mut [u32; 8],
    tally: &mut T,
    v: u32,
    k: u32,
) -> Option<u32>
    requires falling { Falling graph.now }
    requires v_bound { v < 256 }
    requires k_bound { k < 8 }
    requires none { T.counts tally.old 0 }
    requires room { T.most tally.old ≡ 0 }
    ensures most { IfSome result (λ count. count ≤ k) }
    ensures fit_test { (S : Sheet) → Question S graph.now marks.now v
        → FitTest S (marked marks.now) v k (unwrap_or result (k + 1)) cut.new × Looked S (marked marks.now) v k (T.counts tally.new) }
{
    let mut part = [Part::Unmet; 256];
    let over = k + 1;
    let spare = walk(graph, marks, &mut part, tally, v, over);
    if spare == 0 {
        return None;
    }
    let count = over - spare;
    leaves(&part, cut, v, count);
    Some(count)
}

// The test, of which no tally is kept.
pub fn cut_fits(
    graph: &Graph,
    marks: &[bool; 256],
    cut: &mut [u32; 8],
    v: u32,
    k: u32,
) -> Option<u32>
    requires falling { Falling graph.now }
    requires v_bound { v < 256 }
    requires k_bound { k < 8 }
    ensures most { IfSome result (λ count. count ≤ k) }
    ensures fit_test { (S : Sheet) → Question S graph.now marks.now v → FitTest S (marked marks.now) v k (unwrap_or result (k + 1)) cut.new }
{
    fits(graph, marks, cut, &mut Untold, v, k)
}
