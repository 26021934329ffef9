// A pass: every node in id order gets the least label that its conditions and the present labels force. The search has the lists of the differences
// that are heeded.
#![tactic(auto)]

ghost use Rattle.std.specs.Prelude.{◌≡◌, true, ℕ, ◌<◌, ◌≤◌, is_ok};
ghost use Rattle.types.specs.Code.{label_of};
ghost use Rattle.bound.specs.Bound.{Summed};
ghost use Rattle.bound.specs.Sought.{of_search};
ghost use Rattle.sweep.specs.Sweep.{SomeFails};
ghost use Rattle.pass.specs.Turn.{Underway, Onward, SettledNode, Turned, Passed};

use bound::{Labels, Late, Search, open_label};
use level::{Cuts, table_label};
use rows::kind_in;
use sweep::some_fails_below;
use types::{Kind, Label, Level, Step};

// How far a pass comes. It stops where it is not to be whole and a difference that it has broken leads back to a node that had its turn.
#[derive(Clone, Copy)]
pub enum Course {
    Stopped,
    Whole,
}

// The label of v in its turn.
pub fn node_label(search: &Search, kept: &mut Cuts, labels: &Labels, v: u32) -> Label
    requires underway { of_search Underway search.now kept.old labels.now.steps labels.now.levels v }
    requires v_lt_nodes { v < search.now.limits.nodes }
    ensures { of_search Onward search.now kept.old labels.now.steps labels.now.levels v
        (λ S bound. v < search.now.limits.nodes → SettledNode S kept.new labels.now.steps labels.now.levels v (label_of result)) }
{
    let graph = &search.tables.graph;
    let limits = search.limits;
    let base = search.base_label(labels, v);
    match kind_in(graph, v) {
        Kind::Logic => table_label(graph, labels, kept, limits, v, base),
        Kind::Input => base,
        Kind::Box { .. } => {
            let latest = labels.latest_arrival(graph, v, Level(limits.top), base);
            open_label(graph, v, limits.period, latest, limits.windows)
        }
    }
}

// Settles v: writes its label, unless it ends after the horizon.
pub fn settle(search: &Search, kept: &mut Cuts, labels: &mut Labels, v: u32) -> Result<(), Late>
    requires underway { of_search Underway search.now kept.old labels.old.steps labels.old.levels v }
    requires v_lt_nodes { v < search.now.limits.nodes }
    ensures { of_search Onward search.now kept.old labels.old.steps labels.old.levels v
        (λ S bound. v < search.now.limits.nodes → of_search (Turned S bound) search.now kept.new labels.old.steps labels.old.levels labels.new.steps labels.new.levels v (is_ok result)) }
{
    let label = node_label(search, kept, labels, v);
    labels.place_label(&search.tables.graph, v, label, search.limits.horizon)
}

// Whether v has left the step `was`, and a heeded difference from it to a lower node does not hold.
pub fn leads_back(search: &Search, labels: &Labels, v: u32, was: Step) -> bool
    requires v_bound { (v < 256) × (search.now.limits.differences ≤ 1024) }
    requires by_index { (i : ℕ) → i < search.now.limits.differences → Summed search.now.tables.now.differences labels.now.steps i }
    ensures { result ≡ true → SomeFails search.now.tables.now.differences search.now.first.now labels.now.steps search.now.limits.differences }
{
    labels.step_of(v).0 > was.0 && some_fails_below(search, labels, v)
}

// Settles every node in id order, unless one ends after the horizon. Where `whole` is not set it stops as soon as a node's rise leads back.
pub fn pass(
    search: &Search,
    kept: &mut Cuts,
    labels: &mut Labels,
    whole: bool,
) -> Result<Course, Late>
    requires { of_search Underway search.now kept.old labels.old.steps labels.old.levels 0 }
    ensures { of_search Onward search.now kept.old labels.old.steps labels.old.levels 0
        (λ S bound. of_search (Passed S bound) search.now kept.new labels.old.steps labels.old.levels labels.new.steps labels.new.levels whole result) }
{
    for v in 0..search.limits.nodes {
        let was = labels.step_of(v);
        settle(search, kept, labels, v)?;
        if !whole && leads_back(search, labels, v, was) {
            return Ok(Course::Stopped);
        }
    }
    Ok(Course::Whole)
}
