// The label of a logic node in its turn: the least level of its step that a fitting cut carries, or the next step.
ghost use Rattle.std.specs.Prelude.{◌≡◌, false, ℕ, ◌+◌, ◌<◌, ◌≤◌, length};
ghost use Rattle.maps.specs.Label.{leq};
ghost use Rattle.maps.specs.Sheet.{Sheet, is_logic};
ghost use Rattle.types.specs.Code.{label_of};
ghost use Rattle.rows.specs.Table.{kind_at, delay_in, Falling};
ghost use Rattle.cut.specs.Question.{code_for};
ghost use Rattle.relax.specs.Settle.{Settles, Pass};
ghost use Rattle.bound.specs.Lookup.{label_in, arrival_in, count_of, leaf_of, Soon, Beside};
ghost use Rattle.bound.specs.Bound.{Carrying};
ghost use Rattle.bound.specs.Going.{Keeps, Based};
ghost use Rattle.level.specs.Carry.{Leaves, CodesBy, Placed};
ghost use Rattle.level.specs.Span.{TriedLevel, Narrowed, Levelled};

use crate::cuts::{Cuts, try_cut};
use bound::{Labels, level_in};
use cut::code_for;
use flow::Code;
use rows::{Graph, Header, delay_in, kind_in};
use types::{Label, Level, Step};

// The levels that are left to ask about, and how far from the high end the next question is.
#[derive(Clone, Copy)]
pub struct Span {
    pub low: Level,
    pub high: Level,
    pub stride: u32,
}

impl Span {
    // A level of the span: its stride below the high end, or the low end.
    pub fn between(self) -> Level
        requires { self.low.0 < self.high.0 }
        ensures { (self.low.0 ≤ result.0) × (result.0 < self.high.0) }
    {
        if self.stride == 0 || self.high.0 - self.low.0 < self.stride {
            return self.low;
        }
        Level(self.high.0 - self.stride)
    }
}

// The least level of step s by which the leaves of v's kept cut arrive, or top + 1.
pub fn carried(graph: &Graph, labels: &Labels, kept: &Cuts, v: u32, top: Level, s: Step) -> Level
    requires leaves { Leaves graph.now labels.now.steps kept.now v }
    requires top_bound { top.0 < 4294967295 }
    ensures { Carrying top.0 s.0 (count_of kept.now v) (λ j. arrival_in graph.now labels.now.steps labels.now.levels top.0 (delay_in graph.now v) (leaf_of kept.now v j)) result.0 }
{
    let delay = delay_in(graph, v);
    let mut most = Level(0);
    for j in 0..kept.leaf_count_in(v) {
        let u = kept.leaf_in(v, j);
        let a = labels.arrival(graph, u, delay, top);
        most = most.higher(level_in(a, s, top));
    }
    most
}

// The code of u in the question which cuts of a node of the given delay carry a label.
pub fn code_of(graph: &Graph, labels: &Labels, u: u32, delay: Level, top: Level, by: Label) -> Code
    requires u_bound { u < 256 }
    requires soon { Soon graph.now labels.now.steps u }
    ensures { result ≡ code_for (is_logic (kind_at graph.now u)) (leq (arrival_in graph.now labels.now.steps labels.now.levels top.0 delay.0 u) (label_of by)) }
{
    let a = labels.arrival(graph, u, delay, top);
    code_for(kind_in(graph, u), a.at_most(by))
}

// The codes of the question which cuts of v carry a label.
pub fn codes(graph: &Graph, labels: &Labels, code: &mut [Code; 256], v: u32, top: Level, by: Label)
    requires v_bound { v < 256 }
    requires by_index { (u : ℕ) → u < v → Soon graph.now labels.now.steps u }
    ensures { CodesBy graph.now labels.now.steps labels.now.levels code.new v top.0 (label_of by) }
{
    *code = [Code::Inner; 256];
    let delay = delay_in(graph, v);
    for u in 0..v {
        code[u as usize] = code_of(graph, labels, u, delay, top, by);
    }
}

// Seeks a fitting cut of v that carries a label, and keeps it.
pub fn try_level(
    graph: &Graph,
    labels: &Labels,
    kept: &mut Cuts,
    limits: Header,
    v: u32,
    by: Label,
) -> bool
    requires falling { Falling graph.now }
    requires v_bound { (v < 256) × (limits.leaves ≤ 7) }
    requires by_index { (u : ℕ) → u < v → Soon graph.now labels.now.steps u }
    ensures tried_level { (S : Sheet) → Placed S graph.now v limits → TriedLevel S graph.now labels.now.steps labels.now.levels kept.new v limits.top (label_of by) result }
    ensures beside { Beside v kept.old kept.new }
    ensures kept_len_2 { length kept.new ≡ 2048 }
    ensures kept_unchanged { result ≡ false → kept.new ≡ kept.old }
{
    let mut code = [Code::Inner; 256];
    codes(graph, labels, &mut code, v, Level(limits.top), by);
    try_cut(graph, &code, kept, v, limits.leaves)
}

// Twice a stride, up to a limit.
pub fn wider(stride: u32) -> u32
    ensures { (stride ≤ result) × (result ≤ stride + stride) }
{
    if stride > 32768 { stride } else { stride * 2 }
}

// Asks about one level of the span in step s.
pub fn narrow(
    graph: &Graph,
    labels: &Labels,
    kept: &mut Cuts,
    limits: Header,
    v: u32,
    s: Step,
    span: Span,
) -> Span
    requires placed { (S : Sheet) × Placed S graph.now v limits }
    requires by_index { (u : ℕ) → u < v → Soon graph.now labels.now.steps u }
    requires low_lt_high { (span.low.0 < span.high.0) × (span.high.0 ≤ limits.top + 1) }
    ensures kept_len_2 { length kept.new ≡ 2048 }
    ensures narrowed { Narrowed graph.now labels.now.steps labels.now.levels kept.old kept.new v limits s.0 span.low.0 span.high.0 result.low.0 result.high.0 }
{
    let l = span.between();
    if !try_level(graph, labels, kept, limits, v, Label::at(s, l)) {
        return Span {
            low: Level(l.0 + 1),
            stride: 1,
            ..span
        };
    }
    let most = carried(graph, labels, kept, v, Level(limits.top), s);
    Span {
        high: most.higher(span.low),
        stride: wider(span.stride),
        ..span
    }
}

// The least level from base on that a fitting cut of v carries in base's step, or top + 1; the cut is kept.
pub fn least_level(
    graph: &Graph,
    labels: &Labels,
    kept: &mut Cuts,
    limits: Header,
    v: u32,
    base: Label,
) -> Level
    requires placed { (S : Sheet) × Placed S graph.now v limits × Keeps S kept.old v }
    requires by_index { (u : ℕ) → u < v → Soon graph.now labels.now.steps u }
    requires level_bound { base.level.0 ≤ limits.top + 1 }
    ensures kept_len_2 { length kept.new ≡ 2048 }
    ensures levelled { Levelled graph.now labels.now.steps labels.now.levels kept.old kept.new v limits base.step.0 base.level.0 result.0 }
{
    let most = carried(graph, labels, kept, v, Level(limits.top), base.step);
    let mut span = Span {
        low: base.level,
        high: most.higher(base.level),
        stride: 1,
    };
    while span.low.0 < span.high.0 {
        span = narrow(graph, labels, kept, limits, v, base.step, span);
    }
    kept.check_rows();
    span.high
}

// The label of the logic node v, from its base label on.
pub fn table_label(
    graph: &Graph,
    labels: &Labels,
    kept: &mut Cuts,
    limits: Header,
    v: u32,
    base: Label,
) -> Label
    requires placed { (S : Sheet) × Placed S graph.now v limits × Keeps S kept.old v }
    requires by_index { (u : ℕ) → u < v → Soon graph.now labels.now.steps u }
    requires level_le_top { base.level.0 ≤ limits.top }
    ensures settles { (S : Sheet) (bound : ℕ → ℕ) → Placed S graph.now v limits → Keeps S kept.old v → Pass S bound (label_in labels.now.steps labels.now.levels) v → Based S (label_in labels.now.steps labels.now.levels) v (label_of base)
        → Settles S (label_in labels.now.steps labels.now.levels) v (label_of result) × Keeps S kept.new v }
    ensures beside { Beside v kept.old kept.new }
    ensures kept_len_2 { length kept.new ≡ 2048 }
{
    let l = least_level(graph, labels, kept, limits, v, base);
    if l.0 <= limits.top {
        Label::at(base.step, l)
    } else {
        base.next_step(delay_in(graph, v))
    }
}
