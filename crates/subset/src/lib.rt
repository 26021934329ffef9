// What one line of a BLIF text is, by its words.
#![tactic(auto)]

ghost use Rattle.std.specs.Prelude.{◌≡◌, List, [], ◌∷◌, length, get_or};
ghost use Rattle.blif.specs.Words.{Word};
ghost use Rattle.blif.specs.Scan.{name_at, words_at};
ghost use Rattle.blif.specs.Subset as Subset;
ghost use Rattle.blif.specs.Subset.{initial, bit, head, model_line, names_line, latch_line, end_line, row_line, body_line, statement, stage_after};
ghost use Rattle.blif.specs.Limits.{some_nodes};
ghost use Rattle.blif.specs.Model.{is_outside};
ghost use Rattle.subset.specs.Meant.{stage_meant, statement_meant, Shaped, PartsOf};

use scan::{after_blanks, after_word, is_cover, spells};

// Where a line stands; a cover has so many inputs.
#[derive(Clone, Copy, Debug, PartialEq, Eq)]
pub enum Stage {
    First,
    Head,
    Cover(usize),
    Latched,
    Last,
}

// What a line is. Its words after the first say the rest.
#[derive(Clone, Copy, Debug, PartialEq, Eq)]
pub enum Statement {
    Model,
    Inputs,
    Outputs,
    Names,
    Row,
    Latch,
    End,
    Outside,
}

// Of the words after the first: so many are read, then so many are defined; so many are names.
#[derive(Clone, Copy, Debug, PartialEq, Eq)]
pub struct Parts {
    pub reads: usize,
    pub defines: usize,
    pub names: usize,
}

// Whether the name at a position is 0 or 1.
fn is_bit(text: &[u8], at: usize) -> bool
    ensures { result ≡ bit (name_at text.now at) }
{
    spells(text, at, b"0") || spells(text, at, b"1")
}

// Whether the name at a position is a latch's initial value.
fn is_initial(text: &[u8], at: usize) -> bool
    ensures { result ≡ initial (name_at text.now at) }
{
    is_bit(text, at) || spells(text, at, b"2") || spells(text, at, b"3")
}

// Where the third word from a position begins.
fn third_word(text: &[u8], at: usize) -> usize
    requires { length (words_at text.now at) ≡ 3 }
    ensures { name_at text.now result ≡ get_or (words_at text.now at) 2 [] }
{
    let first = after_blanks(text, at);
    let second = after_blanks(text, after_word(text, first));
    after_blanks(text, after_word(text, second))
}

// A `.model` by its words after the first: one name.
fn model_line(count: usize) -> Statement
    ensures { ((ws : List Word) → length ws ≡ count → statement_meant result ws ≡ model_line ws) × Shaped result count }
{
    match count {
        1 => Statement::Model,
        _ => Statement::Outside,
    }
}

// A `.names` by its words after the first.
fn names_line(count: usize) -> Statement
    ensures { ((ws : List Word) → length ws ≡ count → statement_meant result ws ≡ names_line ws) × Shaped result count }
{
    match count {
        0 => Statement::Outside,
        _ => Statement::Names,
    }
}

// An `.end`, which has no word after the first.
fn end_line(count: usize) -> Statement
    ensures { ((ws : List Word) → length ws ≡ count → statement_meant result ws ≡ end_line ws) × Shaped result count }
{
    match count {
        0 => Statement::End,
        _ => Statement::Outside,
    }
}

// A `.latch` by its words after the first.
fn latch_line(text: &[u8], rest: usize, count: usize) -> Statement
    requires { count ≡ length (words_at text.now rest) }
    ensures { (statement_meant result (words_at text.now rest) ≡ latch_line (words_at text.now rest)) × Shaped result count }
{
    match count {
        2 => Statement::Latch,
        3 if is_initial(text, third_word(text, rest)) => Statement::Latch,
        _ => Statement::Outside,
    }
}

// A row of a cover with no inputs.
fn bare_row(text: &[u8], first: usize, rest: usize, count: usize) -> Statement
    requires { count ≡ length (words_at text.now rest) }
    ensures { (statement_meant result (words_at text.now rest) ≡ row_line 0 (name_at text.now first ∷ words_at text.now rest)) × Shaped result count }
{
    if count == 0 && is_bit(text, first) {
        Statement::Row
    } else {
        Statement::Outside
    }
}

// A row of a cover with so many inputs.
fn row_line(text: &[u8], first: usize, rest: usize, count: usize, inputs: usize) -> Statement
    requires { count ≡ length (words_at text.now rest) }
    ensures { (statement_meant result (words_at text.now rest) ≡ row_line inputs (name_at text.now first ∷ words_at text.now rest)) × Shaped result count }
{
    if inputs == 0 {
        bare_row(text, first, rest, count)
    } else if count == 1
        && is_cover(text, first, inputs)
        && is_bit(text, after_blanks(text, rest))
    {
        Statement::Row
    } else {
        Statement::Outside
    }
}

// A line that may stand from the head on, or else `other`.
fn body_line(text: &[u8], first: usize, rest: usize, count: usize, other: Statement) -> Statement
    requires { (count ≡ length (words_at text.now rest)) × Shaped other count }
    ensures { (statement_meant result (words_at text.now rest) ≡ body_line (name_at text.now first) (words_at text.now rest) (statement_meant other (words_at text.now rest))) × Shaped result count }
{
    if spells(text, first, b".names") {
        names_line(count)
    } else if spells(text, first, b".latch") {
        latch_line(text, rest, count)
    } else if spells(text, first, b".end") {
        end_line(count)
    } else {
        other
    }
}

// The first line.
fn first_line(text: &[u8], first: usize, rest: usize, count: usize) -> Statement
    requires { count ≡ length (words_at text.now rest) }
    ensures { (statement_meant result (words_at text.now rest) ≡ statement Subset.first (name_at text.now first ∷ words_at text.now rest)) × Shaped result count }
{
    if spells(text, first, b".model") {
        model_line(count)
    } else {
        Statement::Outside
    }
}

// A line of the head.
fn head_line(text: &[u8], first: usize, rest: usize, count: usize) -> Statement
    requires { count ≡ length (words_at text.now rest) }
    ensures { (statement_meant result (words_at text.now rest) ≡ statement head (name_at text.now first ∷ words_at text.now rest)) × Shaped result count }
{
    if spells(text, first, b".inputs") {
        Statement::Inputs
    } else if spells(text, first, b".outputs") {
        Statement::Outputs
    } else {
        body_line(text, first, rest, count, Statement::Outside)
    }
}

// What the line is whose first word begins at `first`, and whose `count` words after it stand from `rest` on.
pub fn statement_at(text: &[u8], first: usize, rest: usize, count: usize, stage: Stage) -> Statement
    requires { count ≡ length (words_at text.now rest) }
    ensures { (statement_meant result (words_at text.now rest) ≡ statement (stage_meant stage) (name_at text.now first ∷ words_at text.now rest)) × Shaped result count }
{
    match stage {
        Stage::First => first_line(text, first, rest, count),
        Stage::Head => head_line(text, first, rest, count),
        Stage::Cover(inputs) => {
            let other = row_line(text, first, rest, count, inputs);
            body_line(text, first, rest, count, other)
        }
        Stage::Latched => body_line(text, first, rest, count, Statement::Outside),
        Stage::Last => Statement::Outside,
    }
}

// Where the line after stands.
pub fn stage_after(stage: Stage, statement: Statement, count: usize) -> Stage
    requires { Shaped statement count }
    ensures { (ws : List Word) → length ws ≡ count → stage_meant result ≡ stage_after (stage_meant stage) (statement_meant statement ws) }
{
    match statement {
        Statement::Model | Statement::Inputs | Statement::Outputs => Stage::Head,
        Statement::Names => Stage::Cover(count - 1),
        Statement::Latch => Stage::Latched,
        Statement::End => Stage::Last,
        Statement::Row | Statement::Outside => stage,
    }
}

// The names that a line reads and defines, and all its names.
pub fn parts_of(statement: Statement, count: usize) -> Parts
    requires { Shaped statement count }
    ensures { (ws : List Word) → length ws ≡ count → PartsOf (statement_meant statement ws) ws result }
{
    let (reads, defines, names) = match statement {
        Statement::Model => (0, 0, 1),
        Statement::Inputs => (0, count, count),
        Statement::Outputs => (0, 0, count),
        Statement::Names => (count - 1, 1, count),
        Statement::Latch => (1, 1, 2),
        Statement::Row | Statement::End | Statement::Outside => (0, 0, 0),
    };
    Parts {
        reads,
        defines,
        names,
    }
}

// Whether a line is outside the subset.
pub fn is_outside(statement: Statement) -> bool
    ensures { (ws : List Word) → Shaped statement (length ws) → result ≡ is_outside (statement_meant statement ws) }
{
    matches!(statement, Statement::Outside)
}

// Whether a line may stand after so many nodes: `.end` asks for one.
pub fn some_nodes(statement: Statement, nodes: usize) -> bool
    ensures { (ws : List Word) → Shaped statement (length ws) → result ≡ some_nodes nodes (statement_meant statement ws) }
{
    match statement {
        Statement::End => 1 <= nodes,
        _ => true,
    }
}
