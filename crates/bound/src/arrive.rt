// The labels of the nodes, and the labels at which nodes arrive at others.
ghost use Rattle.std.specs.Prelude.{◌≡◌, ℕ, ◌+◌, ◌≤◌, ◌<◌, get_or, is_ok, set, replicate};
ghost use Rattle.maps.specs.Label.{earliest};
ghost use Rattle.maps.specs.Window.{between, open_label};
ghost use Rattle.types.specs.Code.{label_of};
ghost use Rattle.rows.specs.Table.{delay_in, latency_in, count_in, open_in, closing, WholeIn, Falling};
ghost use Rattle.bound.specs.Lookup.{label_in, arrival_in, Soon};
ghost use Rattle.bound.specs.Bound.{Carrying, Latest, LabelPlaced};

use rows::{Graph, clock_to_q_in, count_in, delay_in, latency_in, operand_in, window_in};
use types::{Label, Level, Step};

// The label of each node: its step and its level.
#[derive(Clone, Copy)]
pub struct Labels {
    pub steps: [u32; 256],
    pub levels: [u32; 256],
}

// No labelling is legal within the horizon.
#[derive(Clone, Copy, Debug, PartialEq, Eq)]
pub struct Late;

impl Labels {
    // Every node at the earliest label.
    pub const EARLIEST: Labels = Labels {
        steps: [Label::EARLIEST.step.0; 256],
        levels: [Label::EARLIEST.level.0; 256],
    };

    // The step of v.
    pub fn step_of(&self, v: u32) -> Step
        requires { v < 256 }
        ensures { result.0 ≡ get_or self.now.steps v 0 }
    {
        Step(self.steps[v as usize])
    }

    // The label of v.
    pub fn label_of(&self, v: u32) -> Label
        requires { v < 256 }
        ensures { label_of result ≡ label_in self.now.steps self.now.levels v }
    {
        let i = v as usize;
        Label {
            step: Step(self.steps[i]),
            level: Level(self.levels[i]),
        }
    }

    // Gives v a label.
    pub fn set_label(&mut self, v: u32, label: Label)
        requires { v < 256 }
        ensures steps_after { self.new.steps ≡ set self.old.steps v label.step.0 }
        ensures levels_after { self.new.levels ≡ set self.old.levels v label.level.0 }
    {
        let i = v as usize;
        self.steps[i] = label.step.0;
        self.levels[i] = label.level.0;
    }

    // Gives v a label, unless it then ends after the horizon.
    pub fn place_label(
        &mut self,
        graph: &Graph,
        v: u32,
        label: Label,
        horizon: u32,
    ) -> Result<(), Late>
        requires { v < 256 }
        ensures { LabelPlaced graph.now self.old.steps self.old.levels self.new.steps self.new.levels v (label_of label) horizon (is_ok result) }
    {
        let end = label.step.after(latency_in(graph, v));
        if end.0 > horizon {
            return Err(Late);
        }
        self.set_label(v, label);
        Ok(())
    }

    // Gives every node the earliest label.
    pub fn clear(&mut self)
        ensures steps_after { self.new.steps ≡ replicate 256 earliest.step }
        ensures levels_after { self.new.levels ≡ replicate 256 earliest.level }
    {
        *self = Labels::EARLIEST;
    }

    // The step at which u is ready.
    pub fn ready_step(&self, graph: &Graph, u: u32) -> Step
        requires u_bound { u < 256 }
        requires soon { Soon graph.now self.now.steps u }
        ensures { result.0 ≡ get_or self.now.steps u 0 + latency_in graph.now u }
    {
        self.step_of(u).after(latency_in(graph, u))
    }

    // The label at which u arrives at a node of the given delay. Most nodes have no latency; of these q is not looked up.
    pub fn arrival(&self, graph: &Graph, u: u32, delay: Level, top: Level) -> Label
        requires u_bound { u < 256 }
        requires soon { Soon graph.now self.now.steps u }
        ensures { label_of result ≡ arrival_in graph.now self.now.steps self.now.levels top.0 delay.0 u }
    {
        let own = self.label_of(u);
        let latency = latency_in(graph, u);
        if latency.0 == 0 {
            return own.plus(delay, top);
        }
        let q = clock_to_q_in(graph, u);
        own.ready(latency, q).plus(delay, top)
    }

    // The latest of a label and the arrivals of v's operands.
    pub fn latest_arrival(&self, graph: &Graph, v: u32, top: Level, from: Label) -> Label
        requires v_bound { v < 256 }
        requires falling { Falling graph.now }
        requires by_index { (u : ℕ) → u < v → Soon graph.now self.now.steps u }
        ensures { Latest graph.now self.now.steps self.now.levels v top.0 (count_in graph.now v) (label_of from) (label_of result) }
    {
        let delay = delay_in(graph, v);
        let mut latest = from;
        for j in 0..count_in(graph, v) {
            let u = operand_in(graph, v, j);
            latest = latest.later(self.arrival(graph, u, delay, top));
        }
        latest
    }
}

// The label a of node v, or level d of the next open step where that of a is closed. There are `windows` windows: where there is none, every step is open.
pub fn open_label(graph: &Graph, v: u32, period: u32, a: Label, windows: u32) -> Label
    requires v_bound { v < 256 }
    requires period_nonzero { (0 < period) × (a.step.0 + period + open_in graph.now v ≤ 4294967295) }
    requires whole_in { windows ≡ 0 → WholeIn graph.now period v }
    ensures { label_of result ≡ open_label period (between 0 (open_in graph.now v) (closing graph.now period v)) (delay_in graph.now v) (label_of a) }
{
    if windows == 0 {
        return a;
    }
    let window = window_in(graph, v, period);
    let step = a.step.next_open(period, window.from, window.to);
    if step.0 == a.step.0 {
        return a;
    }
    Label::at(step, delay_in(graph, v))
}

// The least level of step s by which a has come, or top + 1.
pub fn level_in(a: Label, s: Step, top: Level) -> Level
    requires { top.0 < 4294967295 }
    ensures { Carrying top.0 s.0 1 (λ j. label_of a) result.0 }
{
    if a.at_most(Label::at(s, Level(0))) {
        Level(0)
    } else if a.at_most(Label::at(s, top)) {
        a.level
    } else {
        Level(top.0 + 1)
    }
}
