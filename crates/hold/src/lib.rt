// The floating-set test, after a pass: nodes that nothing holds in their step can rise together for ever, so nothing is ever legal.
// Held are the nodes of a step below the shift, and each node with a held operand at most the shift before it or a held difference without a spare
// shift. The shift is 1, or the period where boxes have windows.
// The marks are found by sweeps over the nodes, ids rising and falling in turn, until one finds nothing more.
#![tactic(auto)]

ghost use Rattle.std.specs.Prelude.{◌≡◌, ℕ, ◌<◌, ◌≤◌};
ghost use Rattle.rows.specs.Cells.{Ends};
ghost use Rattle.rows.specs.Table.{Falling};
ghost use Rattle.bound.specs.Lookup.{Soon, Linked};
ghost use Rattle.bound.specs.Bound.{Summed};
ghost use Rattle.hold.specs.Turn.{turn_of};
ghost use Rattle.hold.specs.Mark.{HeldEarly, ByOperand, Ties, ByDifference, Holdable, NodeHeld, Swept, AllMarked, Floats};

use bound::{Labels, Search};
use rows::{count_in, difference_in, operand_in};

// The order in which the nodes have their turn: ids rising, or falling.
#[derive(Clone, Copy)]
pub enum Order {
    Rising,
    Falling,
}

impl Order {
    // The id of the node whose turn comes after i of n.
    pub fn turn(self, i: u32, n: u32) -> u32
        requires { i < n }
        ensures { result ≡ turn_of self i n }
    {
        match self {
            Order::Rising => i,
            Order::Falling => n - 1 - i,
        }
    }
}

// What holds nodes: their operands and the differences into them, of a search, and the labels and the shift.
#[derive(Clone, Copy)]
pub struct Holding<'a> {
    pub search: &'a Search<'a>,
    pub labels: &'a Labels,
    pub shift: u32,
}

impl Holding<'_> {
    // Holds the nodes of a step below the shift, and no other.
    pub fn hold_early(&self, held: &mut [bool; 256])
        requires { self.now.search.now.limits.nodes ≤ 256 }
        ensures { HeldEarly self.now.labels.now.steps held.new self.now.shift self.now.search.now.limits.nodes }
    {
        *held = [false; 256];
        for v in 0..self.search.limits.nodes {
            held[v as usize] = self.labels.step_of(v).0 < self.shift;
        }
    }

    // Whether a held operand of v is at most the shift before it.
    pub fn held_by_operand(&self, held: &[bool; 256], v: u32) -> bool
        requires v_bound { (v < 256) × (self.now.shift ≤ 64) }
        requires falling { Falling self.now.search.now.tables.now.graph }
        requires by_index { (u : ℕ) → u < v → Soon self.now.search.now.tables.now.graph self.now.labels.now.steps u }
        ensures { ByOperand self.now.search.now.tables.now.graph self.now.labels.now.steps held.now self.now.shift v result }
    {
        let graph = &self.search.tables.graph;
        let own = self.labels.step_of(v);
        for j in 0..count_in(graph, v) {
            let u = operand_in(graph, v, j);
            if held[u as usize] && own.0 <= self.labels.ready_step(graph, u).0 + self.shift {
                return true;
            }
        }
        false
    }

    // Whether difference i has a held source and no spare shift.
    pub fn ties(&self, held: &[bool; 256], i: u32) -> bool
        requires i_bound { (i < 1024) × (self.now.shift ≤ 64) }
        requires summed { Summed self.now.search.now.tables.now.differences self.now.labels.now.steps i }
        ensures { Ends result (Ties self.now.search.now.tables.now.differences self.now.labels.now.steps held.now self.now.shift i) (Ties self.now.search.now.tables.now.differences self.now.labels.now.steps held.now self.now.shift i → ⊥) }
    {
        let d = difference_in(&self.search.tables.differences, i);
        held[d.from as usize]
            && self.labels.step_of(d.to).0 + d.minus
                < self.labels.step_of(d.from).0 + d.plus + self.shift
    }

    // Whether a difference into v from a held node leaves v no spare shift.
    pub fn held_by_difference(&self, held: &[bool; 256], v: u32) -> bool
        requires v_bound { (v < 256) × (self.now.search.now.limits.differences ≤ 1024) × (self.now.shift ≤ 64) }
        requires linked { Linked self.now.search.now.tables.now.differences self.now.search.now.limits.differences self.now.search.now.first.now self.now.search.now.next.now }
        requires by_index { (i : ℕ) → i < self.now.search.now.limits.differences → Summed self.now.search.now.tables.now.differences self.now.labels.now.steps i }
        ensures { ByDifference self.now.search.now.tables.now.differences self.now.labels.now.steps held.now self.now.shift self.now.search.now.limits.differences v result }
    {
        let mut e = self.search.first[v as usize];
        while e > 0 {
            if self.ties(held, e - 1) {
                return true;
            }
            e = self.search.next[e as usize - 1];
        }
        false
    }

    // Whether a held operand or a held difference holds v.
    pub fn holdable(&self, held: &[bool; 256], v: u32) -> bool
        requires v_bound { (v < 256) × (self.now.search.now.limits.differences ≤ 1024) × (self.now.shift ≤ 64) }
        requires falling { Falling self.now.search.now.tables.now.graph }
        requires by_index { (u : ℕ) → u < v → Soon self.now.search.now.tables.now.graph self.now.labels.now.steps u }
        requires linked { Linked self.now.search.now.tables.now.differences self.now.search.now.limits.differences self.now.search.now.first.now self.now.search.now.next.now }
        requires by_index_2 { (i : ℕ) → i < self.now.search.now.limits.differences → Summed self.now.search.now.tables.now.differences self.now.labels.now.steps i }
        ensures { Ends result (Holdable self.now.search.now.tables.now.graph self.now.search.now.tables.now.differences self.now.labels.now.steps held.now self.now.shift self.now.search.now.limits.differences v) (Holdable self.now.search.now.tables.now.graph self.now.search.now.tables.now.differences self.now.labels.now.steps held.now self.now.shift self.now.search.now.limits.differences v → ⊥) }
    {
        self.held_by_operand(held, v) || self.held_by_difference(held, v)
    }

    // Holds v where something does; whether it was not held before.
    pub fn hold_node(&self, held: &mut [bool; 256], v: u32) -> bool
        requires v_bound { (v < 256) × (self.now.search.now.limits.differences ≤ 1024) × (self.now.shift ≤ 64) }
        requires falling { Falling self.now.search.now.tables.now.graph }
        requires by_index { (u : ℕ) → u < v → Soon self.now.search.now.tables.now.graph self.now.labels.now.steps u }
        requires linked { Linked self.now.search.now.tables.now.differences self.now.search.now.limits.differences self.now.search.now.first.now self.now.search.now.next.now }
        requires by_index_2 { (i : ℕ) → i < self.now.search.now.limits.differences → Summed self.now.search.now.tables.now.differences self.now.labels.now.steps i }
        ensures { NodeHeld self.now.search.now.tables.now.graph self.now.search.now.tables.now.differences self.now.labels.now.steps held.old held.new self.now.shift self.now.search.now.limits.differences v result }
    {
        if held[v as usize] || !self.holdable(held, v) {
            return false;
        }
        held[v as usize] = true;
        true
    }

    // Holds what can be held, the nodes having their turn in an order; whether something was not held before.
    pub fn hold_in_order(&self, held: &mut [bool; 256], order: Order) -> bool
        requires n_bound { (self.now.search.now.limits.nodes ≤ 256) × (self.now.search.now.limits.differences ≤ 1024) × (self.now.shift ≤ 64) }
        requires falling { Falling self.now.search.now.tables.now.graph }
        requires by_index { (u : ℕ) → u < self.now.search.now.limits.nodes → Soon self.now.search.now.tables.now.graph self.now.labels.now.steps u }
        requires linked { Linked self.now.search.now.tables.now.differences self.now.search.now.limits.differences self.now.search.now.first.now self.now.search.now.next.now }
        requires by_index_2 { (i : ℕ) → i < self.now.search.now.limits.differences → Summed self.now.search.now.tables.now.differences self.now.labels.now.steps i }
        ensures { Swept self.now.search.now.tables.now.graph self.now.search.now.tables.now.differences self.now.labels.now.steps held.old held.new self.now.shift self.now.search.now.limits.nodes self.now.search.now.limits.differences 0 self.now.search.now.limits.nodes result }
    {
        let n = self.search.limits.nodes;
        let mut grew = false;
        for i in 0..n {
            grew |= self.hold_node(held, order.turn(i, n));
        }
        grew
    }
}

// Whether each of n nodes is held.
pub fn all_held(held: &[bool; 256], n: u32) -> bool
    requires { n ≤ 256 }
    ensures { AllMarked held.now n result }
{
    held[..n as usize].iter().all(|is_held| *is_held)
}

// Whether some node floats.
pub fn floats(search: &Search, labels: &Labels, shift: u32) -> bool
    requires n_bound { (search.now.limits.nodes ≤ 256) × (search.now.limits.differences ≤ 1024) × (shift ≤ 64) }
    requires falling { Falling search.now.tables.now.graph }
    requires by_index { (u : ℕ) → u < search.now.limits.nodes → Soon search.now.tables.now.graph labels.now.steps u }
    requires linked { Linked search.now.tables.now.differences search.now.limits.differences search.now.first.now search.now.next.now }
    requires by_index_2 { (i : ℕ) → i < search.now.limits.differences → Summed search.now.tables.now.differences labels.now.steps i }
    ensures { Floats search.now.tables.now.graph search.now.tables.now.differences labels.now.steps shift search.now.limits.nodes search.now.limits.differences result }
{
    let holding = Holding {
        search,
        labels,
        shift,
    };
    let mut held = [false; 256];
    holding.hold_early(&mut held);
    while holding.hold_in_order(&mut held, Order::Rising)
        && holding.hold_in_order(&mut held, Order::Falling)
    {}
    !all_held(&held, search.limits.nodes)
}
