// When the least labels are ready: the labels of any horizon against the sheet's own, and their latency.
#![tactic(auto)]

ghost use Rattle.std.specs.Prelude.{◌≡◌, true, List, [], ℕ, ◌<◌, ◌≤◌, is_ok};
ghost use Rattle.maps.specs.Sheet.{Sheet, size};
ghost use Rattle.maps.specs.Legal.{plan_latency};
ghost use Rattle.maps.specs.Least.{at, in_time, late, least, least_ever};
ghost use Rattle.maps.specs.Outcome.{cutless};
ghost use Rattle.rows.specs.Table.{Tabled};
ghost use Rattle.rows.specs.Cells.{Ends};
ghost use Rattle.bound.specs.Lookup.{labels_in, Soon};
ghost use Rattle.bound.specs.Going.{Given, AllKept};
ghost use Rattle.timing.specs.Timing.{Far, Searched, Times, output_step};

use bound::{Labels, Late};
use level::Cuts;
use rows::{Graph, Header, Tables, output_in};
use schedule::least_labels;
use types::{Refusal, Step};

// No ready label of least labels is later, whatever the sheet: 255 differences of 65,535 one after the other, and a latency of 255.
const FARTHEST: u32 = 16711680;

// The limits with a horizon that no least label passes.
pub fn far_limits(limits: Header) -> Header
    ensures { Far limits result }
{
    Header {
        horizon: FARTHEST,
        ..limits
    }
}

// Whether the ready labels of n nodes are within the horizon.
pub fn in_time(graph: &Graph, labels: &Labels, n: u32, horizon: u32) -> bool
    requires n_bound { n ≤ 256 }
    requires by_index { (u : ℕ) → u < n → Soon graph.now labels.now.steps u }
    ensures { (S : Sheet) (levels : List ℕ) → Tabled S graph.now → n ≡ size S → in_time S (labels_in n labels.now.steps levels) horizon ≡ result }
{
    for v in 0..n {
        if labels.ready_step(graph, v).0 > horizon {
            return false;
        }
    }
    true
}

// The limits within which labels are sought: as they are where there are entries, otherwise with a horizon that no least label passes.
pub fn search_limits(limits: Header) -> Header
    ensures { Searched limits result }
{
    if limits.windows == 0 {
        far_limits(limits)
    } else {
        limits
    }
}

// Whether the least labels of any horizon, where they are found, are in time, for a sheet without entries; or which refusal it comes to.
pub fn time_ever(
    graph: &Graph,
    labels: &Labels,
    limits: Header,
    found: Result<(), Late>,
) -> Result<(), Refusal>
    requires nodes_bound { limits.nodes ≤ 256 }
    requires soon { is_ok found ≡ true → (u : ℕ) → u < limits.nodes → Soon graph.now labels.now.steps u }
    ensures { (S : Sheet) (levels : List ℕ) → Tabled S graph.now → limits.nodes ≡ size S → S.windows ≡ []
        → Ends (is_ok found) (least_ever S ≡ least (labels_in limits.nodes labels.now.steps levels)) (least_ever S ≡ late)
        → Times S limits.horizon (labels_in limits.nodes labels.now.steps levels) result }
{
    found.map_err(|_| Refusal::Never(0))?;
    if !in_time(graph, labels, limits.nodes, limits.horizon) {
        return Err(Refusal::Late(0));
    }
    Ok(())
}

// Writes the least legal labels, which are in time, or says which refusal the sheet comes to: they are sought within the horizon of the limits where
// there are entries, otherwise under any horizon. `kept` has a fitting cut of each logic node.
pub fn time_labels(
    tables: &Tables,
    limits: Header,
    kept: &mut Cuts,
    labels: &mut Labels,
) -> Result<(), Refusal>
    requires { (S : Sheet) × Given S tables.now.graph tables.now.differences limits × AllKept S kept.old × (cutless S ≡ []) }
    ensures { (S : Sheet) → Given S tables.now.graph tables.now.differences limits → AllKept S kept.old → cutless S ≡ []
        → Times S limits.horizon (labels_in limits.nodes labels.new.steps labels.new.levels) result }
{
    let found = least_labels(tables, search_limits(limits), kept, labels);
    if limits.windows == 0 {
        return time_ever(&tables.graph, labels, limits, found);
    }
    found.map_err(|_| Refusal::Late(0))
}

// The ready step of u if it is an output, otherwise 0.
fn output_step(graph: &Graph, labels: &Labels, u: u32) -> Step
    requires u_bound { u < 256 }
    requires soon { Soon graph.now labels.now.steps u }
    ensures { result.0 ≡ output_step graph.now labels.now.steps u }
{
    let ready = labels.ready_step(graph, u);
    if output_in(graph, u) { ready } else { Step(0) }
}

// The greatest ready step among the outputs of n nodes; 0 where none is an output.
pub fn latency(graph: &Graph, labels: &Labels, n: u32) -> Step
    requires n_bound { n ≤ 256 }
    requires by_index { (u : ℕ) → u < n → Soon graph.now labels.now.steps u }
    ensures { (S : Sheet) (levels : List ℕ) → Tabled S graph.now → n ≡ size S → result.0 ≡ plan_latency S (at (labels_in n labels.now.steps levels)) }
{
    let mut most = Step(0);
    for u in 0..n {
        most = most.later(output_step(graph, labels, u));
    }
    most
}
