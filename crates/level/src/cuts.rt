// Fitting cuts, and the table of the cuts that are kept. Contracts see the table as one list of numbers.
ghost use Rattle.std.specs.Prelude.{◌≡◌, Bool, true, false, ℕ, ◌<◌, ◌≤◌, IfSome, unwrap_or, get_or, length, replicate, take};
ghost use Rattle.maps.specs.Sheet.{Sheet, is_logic};
ghost use Rattle.rows.specs.Table.{kind_at, Falling};
ghost use Rattle.flow.specs.declared.Code.TheVariants.{Inner};
ghost use Rattle.cut.specs.Question.{code_for, Asked};
ghost use Rattle.bound.specs.Lookup.{count_of, leaf_of, Beside};
ghost use Rattle.level.specs.Cuts.{Stored, TriedCut, FitTest, Lowest};

use cut::{ask, code_for};
use flow::Code;
use rows::{Graph, kind_in};
use std::marker::Model;
use types::Kind;

// The cut of a node: how many leaves it has, and the leaves.
#[derive(Clone, Copy)]
struct Cut {
    count: u32,
    leaves: [u32; 7],
}

// A cut for each of 256 nodes.
#[derive(Clone, Copy)]
pub struct Cuts {
    rows: [Cut; 256],
}

impl Model for Cuts {
    ghost use Rattle.std.specs.Prelude.{◌≡◌, ℕ, List, length, All};
    ghost use Rattle.level.specs.Numbers.{numbers, cuts_of, Seven};
    ghost use Rattle.level.specs.CutsBack.{cuts-back};

    ghost Value = { List ℕ };

    ghost view = { λ a. numbers a.rows };

    ghost invariant = { λ a. (length a.rows ≡ 256) × All (λ c. Seven c.leaves) a.rows };

    ghost inverse = { λ xs. record { rows = cuts_of xs } };

    ghost inverse_ok = { λ a h i. record { rows = cuts-back a.rows h.1 i } };
}

impl Cut {
    // A cut of count leaves, which are the first numbers of cut.
    fn new(cut: &[u32; 8], count: u32) -> Cut
        ensures { (result.count ≡ count) × (result.leaves ≡ take 7 cut.now) }
    {
        let mut leaves = [0; 7];
        leaves.copy_from_slice(&cut[..7]);
        Cut { count, leaves }
    }
}

impl Cuts {
    // A table in which no cut has leaves.
    pub fn new() -> Cuts
        ensures { result ≡ replicate 2048 0 }
    {
        let none = Cut {
            count: 0,
            leaves: [0; 7],
        };
        Cuts { rows: [none; 256] }
    }

    // Whatever was kept, the table has a row for each of 256 nodes.
    pub fn check_rows(&self)
        ensures { length self.now ≡ 2048 }
    {
        let rows: &[Cut] = &self.rows;
        prove!(rows.len() == 256);
    }

    // How many leaves the cut of v has.
    pub fn leaf_count_in(&self, v: u32) -> u32
        requires { v < 256 }
        ensures { result ≡ count_of self.now v }
    {
        self.rows[v as usize].count
    }

    // The leaf j of v's cut.
    pub fn leaf_in(&self, v: u32, j: u32) -> u32
        requires { (v < 256) × (j < 7) }
        ensures { result ≡ leaf_of self.now v j }
    {
        self.rows[v as usize].leaves[j as usize]
    }

    // Keeps the first count numbers of cut for v.
    pub fn keep_cut(&mut self, cut: &[u32; 8], v: u32, count: u32)
        requires v_bound { (v < 256) × (count ≤ 7) }
        ensures stored { Stored cut.now self.old self.new v count }
        ensures cut_len { (length cut.now ≡ 8) × (length self.new ≡ 2048) }
    {
        self.rows[v as usize] = Cut::new(cut, count);
    }
}

// Seeks an allowed cut of v with at most k leaves, and keeps it.
pub fn try_cut(graph: &Graph, code: &[Code; 256], kept: &mut Cuts, v: u32, k: u32) -> bool
    requires falling { Falling graph.now }
    requires v_bound { (v < 256) × (k ≤ 7) }
    ensures tried_cut { (S : Sheet) (may : ℕ → Bool) → Asked S may v graph.now code.now → TriedCut S may v k kept.new result }
    ensures beside { Beside v kept.old kept.new }
    ensures kept_len_2 { length kept.new ≡ 2048 }
    ensures kept_unchanged { result ≡ false → kept.new ≡ kept.old }
{
    kept.check_rows();
    let mut cut = [0u32; 8];
    match ask(graph, code, &mut cut, v, k) {
        Some(count) => {
            kept.keep_cut(&cut, v, count);
            true
        }
        None => false,
    }
}

// The codes of the question about v under which every node below it may be a leaf.
pub fn open_codes(graph: &Graph, code: &mut [Code; 256], v: u32)
    requires { v < 256 }
    ensures by_index { (u : ℕ) → u < v → get_or code.new u Inner ≡ code_for (is_logic (kind_at graph.now u)) true }
    ensures v_after { get_or code.new v Inner ≡ Inner }
{
    *code = [Code::Inner; 256];
    for u in 0..v {
        code[u as usize] = code_for(kind_in(graph, u), true);
    }
}

// Whether v has a fitting cut or is no logic node; the cut is kept.
pub fn has_cut(graph: &Graph, kept: &mut Cuts, v: u32, k: u32) -> bool
    requires falling { Falling graph.now }
    requires v_bound { (v < 256) × (k ≤ 7) }
    requires kept_len { length kept.old ≡ 2048 }
    ensures fit_test { (S : Sheet) → FitTest S graph.now v k kept.new result }
    ensures beside { Beside v kept.old kept.new }
    ensures kept_len_2 { length kept.new ≡ 2048 }
{
    match kind_in(graph, v) {
        Kind::Input | Kind::Box { .. } => true,
        Kind::Logic => {
            let mut code = [Code::Inner; 256];
            open_codes(graph, &mut code, v);
            try_cut(graph, &code, kept, v, k)
        }
    }
}

// The lowest of the first n nodes that is a logic node without a fitting cut, or none where each logic node has one; then a fitting cut of each is kept.
pub fn lowest_cutless(graph: &Graph, kept: &mut Cuts, n: u32, k: u32) -> Option<u32>
    requires falling { Falling graph.now }
    requires n_bound { (n ≤ 256) × (k ≤ 7) }
    ensures below { IfSome result (λ v. v < n) }
    ensures lowest { (S : Sheet) → Lowest S graph.now n k kept.new (unwrap_or result n) }
{
    *kept = Cuts::new();
    for v in 0..n {
        if !has_cut(graph, kept, v, k) {
            return Some(v);
        }
    }
    None
}
