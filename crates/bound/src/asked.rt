// The least step that a node's own label, its operands and the differences into it ask for.
ghost use Rattle.std.specs.Prelude.{◌≡◌, List, ℕ, ◌+◌, ◌<◌, ◌≤◌, max, length};
ghost use Rattle.maps.specs.Sheet.{Sheet};
ghost use Rattle.types.specs.Code.{label_of};
ghost use Rattle.rows.specs.Table.{count_in, to_in, Falling};
ghost use Rattle.relax.specs.Settle.{Asks};
ghost use Rattle.bound.specs.Lookup.{label_in, Linked, Heeding, Soon, step_limit};
ghost use Rattle.bound.specs.Bound.{Greatest, ready_step, Into, push_of, Summed};
ghost use Rattle.bound.specs.Going.{Bounding, Based};
ghost use Rattle.bound.specs.Sought.{of_search};

use crate::arrive::Labels;
use rows::{Differences, Graph, Header, Tables, count_in, delay_in, difference_in, operand_in};
use types::{Label, Step};

// Puts difference i at the head of its target's list.
pub fn link_one(differences: &Differences, first: &mut [u32; 256], next: &mut [u32; 1024], i: u32)
    requires linked { Linked differences.now i first.old next.old }
    requires i_bound { (i < 1024) × (to_in differences.now i < 256) }
    requires first_len { (length first.old ≡ 256) × (length next.old ≡ 1024) }
    ensures linked_2 { Linked differences.now (i + 1) first.new next.new }
    ensures first_len_2 { (length first.new ≡ 256) × (length next.new ≡ 1024) }
{
    let to = difference_in(differences, i).to as usize;
    next[i as usize] = first[to];
    first[to] = i + 1;
}

// Lists the differences by their target: `first[v]`, then `next` of each, counted from 1; 0 ends a list.
pub fn link(differences: &Differences, first: &mut [u32; 256], next: &mut [u32; 1024], m: u32)
    requires m_bound { m ≤ 1024 }
    requires by_index { (i : ℕ) → i < m → to_in differences.now i < 256 }
    ensures { Linked differences.now m first.new next.new }
{
    *first = [0; 256];
    *next = [0; 1024];
    for i in 0..m {
        link_one(differences, first, next, i);
    }
}

// The latest of s and the ready steps of v's operands.
pub fn after_operands(graph: &Graph, labels: &Labels, v: u32, s: Step) -> Step
    requires v_bound { v < 256 }
    requires falling { Falling graph.now }
    requires by_index { (u : ℕ) → u < v → Soon graph.now labels.now.steps u }
    ensures { Greatest s.0 (λ j. j < count_in graph.now v) (ready_step graph.now labels.now.steps v) result.0 }
{
    let mut most = s;
    for j in 0..count_in(graph, v) {
        let u = operand_in(graph, v, j);
        most = most.later(labels.ready_step(graph, u));
    }
    most
}

// The later of s and the step that difference i asks of its target.
pub fn pushed(differences: &Differences, labels: &Labels, i: u32, s: Step) -> Step
    requires i_bound { i < 1024 }
    requires summed { Summed differences.now labels.now.steps i }
    ensures { result.0 ≡ max s.0 (push_of differences.now labels.now.steps i) }
{
    let difference = difference_in(differences, i);
    let ahead = labels.step_of(difference.from).0 + difference.plus;
    if ahead <= difference.minus {
        return s;
    }
    s.later(Step(ahead - difference.minus))
}

// What labels are sought for: the tables of a sheet within limits, with the lists of its differences by target: `first[v]`, then `next` of each, counted from 1;
// 0 ends a list.
#[derive(Clone, Copy)]
pub struct Search<'a> {
    pub tables: &'a Tables,
    pub limits: Header,
    pub first: &'a [u32; 256],
    pub next: &'a [u32; 1024],
}

impl Search<'_> {
    // The latest of s and the steps that the differences in the list of v ask for.
    pub fn after_differences(&self, labels: &Labels, v: u32, s: Step) -> Step
        requires v_bound { (v < 256) × (self.now.limits.differences ≤ 1024) }
        requires heeding { Heeding self.now.tables.now.differences self.now.limits.differences self.now.first.now self.now.next.now }
        requires by_index { (i : ℕ) → i < self.now.limits.differences → Summed self.now.tables.now.differences labels.now.steps i }
        ensures { Greatest s.0 (Into self.now.tables.now.differences self.now.first.now self.now.limits.differences v) (push_of self.now.tables.now.differences labels.now.steps) result.0 }
    {
        let mut most = s;
        let mut e = self.first[v as usize];
        while e > 0 {
            most = pushed(&self.tables.differences, labels, e - 1, most);
            e = self.next[e as usize - 1];
        }
        most
    }

    // The least step of v that its own label, its operands and the differences in its list allow.
    pub fn step_asked(&self, labels: &Labels, v: u32) -> Step
        requires { (S : Sheet) × (levels : List ℕ) × of_search (Bounding S) self.now labels.now.steps levels v }
        ensures asks { (S : Sheet) (levels : List ℕ) → of_search (Bounding S) self.now labels.now.steps levels v
            → Asks S (label_in labels.now.steps levels) v result.0 × (result.0 < step_limit) }
        ensures by_index { (i : ℕ) → Into self.now.tables.now.differences self.now.first.now self.now.limits.differences v i → push_of self.now.tables.now.differences labels.now.steps i ≤ result.0 }
    {
        let s = after_operands(&self.tables.graph, labels, v, labels.step_of(v));
        self.after_differences(labels, v, s)
    }

    // The later of v's own label and its delay in the step asked.
    pub fn base_label(&self, labels: &Labels, v: u32) -> Label
        requires { (S : Sheet) × of_search (Bounding S) self.now labels.now.steps labels.now.levels v }
        ensures { (S : Sheet) → of_search (Bounding S) self.now labels.now.steps labels.now.levels v
            → Based S (label_in labels.now.steps labels.now.levels) v (label_of result) }
    {
        let s = self.step_asked(labels, v);
        let delay = delay_in(&self.tables.graph, v);
        labels.label_of(v).later(Label::at(s, delay))
    }
}
