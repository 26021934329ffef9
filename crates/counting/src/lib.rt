// The test whether a cone's cut fits, and the walk of the cone to its end, with a count of the operands that they look at.
#![tactic(auto)]

ghost use Rattle.std.specs.Prelude.{ℕ, ◌+◌, ◌<◌, ◌≤◌, ◌≡◌, Bool, IfSome, unwrap_or};
ghost use Rattle.maps.specs.Sheet.{Sheet, size};
ghost use Rattle.rows.specs.Table.{Falling};
ghost use Rattle.cone.specs.Walk.{marked, ConeInside, Question, FitTest};
ghost use Rattle.cone.specs.Looks.{LookedAt, operands_of};

use cone::{Part, Tally, fits, walk};
use rows::Graph;

// How many operands were looked at.
#[derive(Clone, Copy)]
struct Count {
    looked: u32,
}

impl Tally for Count {
    ghost counts = { λ s n. s.looked ≡ n };

    ghost most = { λ s. s.looked };

    fn look(&mut self) {
        self.looked += 1;
    }
}

// The test, and in `looked` how many operands it has looked at: those up to and with the one at which leaf k + 1 is met, or all of the cone's.
pub fn cut_fits(
    graph: &Graph,
    marks: &[bool; 256],
    cut: &mut [u32; 8],
    looked: &mut u32,
    v: u32,
    k: u32,
) -> Option<u32>
    requires falling { Falling graph.now }
    requires v_bound { v < 256 }
    requires k_bound { k < 8 }
    ensures most { IfSome result (λ count. count ≤ k) }
    ensures fit_test { (S : Sheet) → Question S graph.now marks.now v
        → FitTest S (marked marks.now) v k (unwrap_or result (k + 1)) cut.new × LookedAt S (marked marks.now) v k looked.new }
{
    let mut count = Count { looked: 0 };
    let leaves = fits(graph, marks, cut, &mut count, v, k);
    *looked = count.looked;
    leaves
}

// How many operands the walk to the end looks at: as many as the members of the cone have. No cut has 257 leaves.
pub fn all_looks(graph: &Graph, marks: &[bool; 256], v: u32) -> u32
    requires falling { Falling graph.now }
    requires v_bound { v < 256 }
    ensures { (S : Sheet) (C : ℕ → Bool) → Question S graph.now marks.now v → ConeInside S (marked marks.now) v C → result ≡ operands_of S C (size S) }
{
    let mut part = [Part::Unmet; 256];
    let mut count = Count { looked: 0 };
    walk(graph, marks, &mut part, &mut count, v, 257);
    count.looked
}
