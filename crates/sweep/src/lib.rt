// What is done with the differences between two passes: which of them are heeded, whether these hold, and a sweep that raises nodes, ids falling, as
// far as the differences into them alone ask. Differences whose list in the search is empty are not heeded.
#![tactic(auto)]

ghost use Rattle.std.specs.Prelude.{◌≡◌, ℕ, ◌<◌, ◌≤◌, is_ok};
ghost use Rattle.maps.specs.Sheet.{Sheet};
ghost use Rattle.rows.specs.Cells.{Ends};
ghost use Rattle.bound.specs.Bound.{Summed};
ghost use Rattle.bound.specs.Sought.{of_search};
ghost use Rattle.sweep.specs.Sweep.{Fails, AllHold, SomeFails, FailsBelow, Frozen, Thawed, Sweepable, PushEnds, SweepEnds};

use bound::{Labels, Late, Search};
use rows::{delay_in, difference_in};
use types::Label;

// Whether difference i is heeded and does not hold.
pub fn fails(search: &Search, labels: &Labels, i: u32) -> bool
    requires i_bound { i < 1024 }
    requires summed { Summed search.now.tables.now.differences labels.now.steps i }
    ensures { Ends result (Fails search.now.tables.now.differences search.now.first.now labels.now.steps i) (Fails search.now.tables.now.differences search.now.first.now labels.now.steps i → ⊥) }
{
    let d = difference_in(&search.tables.differences, i);
    if search.first[d.to as usize] == 0 {
        return false;
    }
    let ahead = labels.step_of(d.from).0 + d.plus;
    let behind = labels.step_of(d.to).0 + d.minus;
    ahead > behind
}

// Whether every heeded difference holds.
pub fn differences_hold(search: &Search, labels: &Labels) -> bool
    requires m_bound { search.now.limits.differences ≤ 1024 }
    requires by_index { (i : ℕ) → i < search.now.limits.differences → Summed search.now.tables.now.differences labels.now.steps i }
    ensures { Ends result (AllHold search.now.tables.now.differences search.now.first.now labels.now.steps search.now.limits.differences) (SomeFails search.now.tables.now.differences search.now.first.now labels.now.steps search.now.limits.differences) }
{
    for i in 0..search.limits.differences {
        if fails(search, labels, i) {
            return false;
        }
    }
    true
}

// Whether difference i leads from v to a lower node, is heeded and does not hold.
pub fn fails_below(search: &Search, labels: &Labels, i: u32, v: u32) -> bool
    requires i_bound { i < 1024 }
    requires summed { Summed search.now.tables.now.differences labels.now.steps i }
    ensures { Ends result (FailsBelow search.now.tables.now.differences search.now.first.now labels.now.steps v i) (FailsBelow search.now.tables.now.differences search.now.first.now labels.now.steps v i → ⊥) }
{
    let d = difference_in(&search.tables.differences, i);
    d.from == v && d.to < v && fails(search, labels, i)
}

// Whether a heeded difference from v to a lower node does not hold.
pub fn some_fails_below(search: &Search, labels: &Labels, v: u32) -> bool
    requires m_bound { search.now.limits.differences ≤ 1024 }
    requires by_index { (i : ℕ) → i < search.now.limits.differences → Summed search.now.tables.now.differences labels.now.steps i }
    ensures { Ends result ((i : ℕ) × (i < search.now.limits.differences) × FailsBelow search.now.tables.now.differences search.now.first.now labels.now.steps v i) ((i : ℕ) → i < search.now.limits.differences → FailsBelow search.now.tables.now.differences search.now.first.now labels.now.steps v i → ⊥) }
{
    for i in 0..search.limits.differences {
        if fails_below(search, labels, i, v) {
            return true;
        }
    }
    false
}

// Heeds the differences into those nodes alone whose step has moved since the steps in `since` were noted, and notes the steps.
pub fn freeze(search: &Search, labels: &Labels, since: &mut [u32; 256], heeded: &mut [u32; 256])
    requires { search.now.limits.nodes ≤ 256 }
    ensures frozen { Frozen search.now.first.now labels.now.steps since.old heeded.new search.now.limits.nodes }
    ensures since_after { since.new ≡ labels.now.steps }
{
    *heeded = [0; 256];
    for v in 0..search.limits.nodes {
        let i = v as usize;
        if labels.step_of(v).0 != since[i] {
            heeded[i] = search.first[i];
        }
    }
    *since = labels.steps;
}

// Heeds all differences again where those that are heeded hold.
pub fn thaw(search: &Search, labels: &Labels, heeded: &mut [u32; 256])
    requires m_bound { search.now.limits.differences ≤ 1024 }
    requires by_index { (i : ℕ) → i < search.now.limits.differences → Summed search.now.tables.now.differences labels.now.steps i }
    ensures { Thawed search.now.tables.now.differences search.now.first.now labels.now.steps heeded.old heeded.new search.now.limits.differences }
{
    let heeding = Search {
        first: heeded,
        ..*search
    };
    if differences_hold(&heeding, labels) {
        *heeded = *search.first;
    }
}

// Raises v to its delay in the step that the heeded differences into it ask for, where that is later, unless it then ends after the horizon.
pub fn push(search: &Search, labels: &mut Labels, v: u32) -> Result<(), Late>
    requires by_index { (S : Sheet) × (bound : ℕ → ℕ) × of_search (Sweepable S bound) search.now labels.old.steps labels.old.levels }
    requires v_lt_nodes { v < search.now.limits.nodes }
    ensures { (S : Sheet) (bound : ℕ → ℕ) → of_search (Sweepable S bound) search.now labels.old.steps labels.old.levels → v < search.now.limits.nodes
        → PushEnds S bound search.now.limits.horizon search.now.first.now labels.old.steps labels.old.levels labels.new.steps labels.new.levels v (is_ok result) }
{
    let own = labels.step_of(v);
    let asked = search.after_differences(labels, v, own);
    if asked.0 <= own.0 {
        return Ok(());
    }
    let graph = &search.tables.graph;
    let label = Label::at(asked, delay_in(graph, v));
    labels.place_label(graph, v, label, search.limits.horizon)
}

// Pushes every node, ids falling, unless one ends after the horizon.
pub fn sweep(search: &Search, labels: &mut Labels) -> Result<(), Late>
    requires { (S : Sheet) × (bound : ℕ → ℕ) × of_search (Sweepable S bound) search.now labels.old.steps labels.old.levels }
    ensures { (S : Sheet) (bound : ℕ → ℕ) → of_search (Sweepable S bound) search.now labels.old.steps labels.old.levels
        → SweepEnds S bound search.now.limits.horizon search.now.first.now labels.old.steps labels.old.levels labels.new.steps labels.new.levels (is_ok result) }
{
    for v in (0..search.limits.nodes).rev() {
        push(search, labels, v)?;
    }
    Ok(())
}
