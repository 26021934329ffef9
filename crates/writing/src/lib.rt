// Plans, written as bytes.
#![tactic(auto)]

ghost use Rattle.std.specs.Prelude.{◌≡◌, ◌++◌, false, cond, map, ℕ, ◌+◌, ◌*◌, ◌<◌, ◌≤◌, length, take, get_or};
ghost use Rattle.maps.specs.Lists.{All, below, concat};
ghost use Rattle.maps.specs.Limits.{leaves_range, top_range, horizon_range, size_range};
ghost use Rattle.maps.specs.Number.{encoded};
ghost use Rattle.maps.specs.Sizes.{label_bytes_most, cut_bytes_most, row_bytes_most, plan_most};
ghost use Rattle.bound.specs.Lookup.{count_of};
ghost use Rattle.cover.specs.Cover.{Rows, row_of};
ghost use Rattle.writing.specs.Bytes.{Small, flat_row, flat_plan};
ghost use Rattle.out_bytes.specs.Put.{Put};
ghost use Rattle.writing.specs.Writing.{Writable};

use bound::Labels;
use level::Cuts;
use out_bytes::Output;

// A plan that is being written, with room for the longest.
pub type PlanBytes = Output<4611>;

// Writes the step, the level and the mark of v.
fn put_node(labels: &Labels, used: &[bool; 256], v: u32, plan: &mut PlanBytes)
    requires v_bound { (v < 256) × (get_or labels.now.steps v 0 ≤ horizon_range.high) × (get_or labels.now.levels v 0 ≤ top_range.high) }
    requires label_bytes_most_in_bounds { plan.old.len + label_bytes_most ≤ length plan.old.bytes }
    ensures { Put label_bytes_most plan.old.bytes plan.new.bytes plan.old.len plan.new.len
        (encoded (get_or labels.now.steps v 0) ++ encoded (get_or labels.now.levels v 0) ++ encoded (cond (get_or used.now v false) 1 0)) }
{
    let label = labels.label_of(v);
    plan.put(label.step.0);
    plan.put(label.level.0);
    plan.put(u32::from(used[v as usize]));
}

// Writes the row of v: the leaf count, then the leaves.
fn put_cut(cuts: &Cuts, v: u32, plan: &mut PlanBytes)
    requires v_bound { (v < 256) × (count_of cuts.now v ≤ leaves_range.high) × All (λ u. u < 256) (row_of cuts.now v) }
    requires cut_bytes_most_in_bounds { plan.old.len + cut_bytes_most ≤ length plan.old.bytes }
    ensures { Put cut_bytes_most plan.old.bytes plan.new.bytes plan.old.len plan.new.len
        (encoded (count_of cuts.now v) ++ concat (map encoded (row_of cuts.now v))) }
{
    let count = cuts.leaf_count_in(v);
    plan.put(count);
    for j in 0..count {
        plan.put(cuts.leaf_in(v, j));
    }
}

// Writes all the numbers of v.
fn put_row(labels: &Labels, used: &[bool; 256], cuts: &Cuts, v: u32, plan: &mut PlanBytes)
    requires v_bound { (v < 256) × Writable labels.now.steps labels.now.levels cuts.now v }
    requires row_bytes_most_in_bounds { plan.old.len + row_bytes_most ≤ length plan.old.bytes }
    ensures { Put row_bytes_most plan.old.bytes plan.new.bytes plan.old.len plan.new.len
        (flat_row labels.now.steps labels.now.levels used.now cuts.now v) }
{
    put_node(labels, used, v, plan);
    put_cut(cuts, v, plan);
}

// Writes the rows of n nodes in id order.
fn put_rows(n: u32, labels: &Labels, used: &[bool; 256], cuts: &Cuts, plan: &mut PlanBytes)
    requires n_bound { (n ≤ 256) × ((v : ℕ) → v < n → Writable labels.now.steps labels.now.levels cuts.now v) }
    requires row_bytes_most_in_bounds { plan.old.len + size_range.high * row_bytes_most ≤ length plan.old.bytes }
    ensures { Put (size_range.high * row_bytes_most) plan.old.bytes plan.new.bytes plan.old.len plan.new.len
        (concat (map (flat_row labels.now.steps labels.now.levels used.now cuts.now) (below n))) }
{
    for v in 0..n {
        put_row(labels, used, cuts, v, plan);
    }
}

// Writes the plan of n nodes, from the first byte on.
pub fn write_plan(
    latency: u32,
    n: u32,
    labels: &Labels,
    used: &[bool; 256],
    cuts: &Cuts,
    plan: &mut PlanBytes,
)
    requires small { Small latency n labels.now.steps labels.now.levels }
    requires rows { Rows n used.now cuts.now }
    requires bytes_len { length plan.old.bytes ≡ plan_most }
    ensures written { (plan.new.len ≡ length (flat_plan latency n labels.now.steps labels.now.levels used.now cuts.now))
        × (take plan.new.len plan.new.bytes ≡ flat_plan latency n labels.now.steps labels.now.levels used.now cuts.now)
        × (plan.new.len ≤ plan_most) }
    ensures bytes_len { length plan.new.bytes ≡ plan_most }
{
    plan.len = 0;
    plan.put(latency);
    put_rows(n, labels, used, cuts, plan);
}
