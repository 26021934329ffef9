// The outputs of a model: their nodes are marked, or the first that no line defines is found.
#![tactic(auto)]

ghost use Rattle.std.specs.Prelude.{◌≡◌, false, ℕ, ◌≤◌, ◌<◌, length, take};
ghost use Rattle.records.specs.Rows.{node_place};
ghost use Rattle.blif.specs.Scan.{words_at};
ghost use Rattle.blif.specs.Names.{names_of};
ghost use Rattle.blif.specs.Model.{Model, found, model_of};
ghost use Rattle.names.specs.Table.{names_in, Listed};
ghost use Rattle.definitions.specs.Rows.{rows_from};
ghost use Rattle.outputs.specs.ByWord.{output_words};
ghost use Rattle.outputs.specs.Marks.{WordsMarked, OutputsMarked};

use names::{Names, id_of};
use records::mark_output;
use scan::{after_blanks, after_line, after_word, line_ends, line_number, line_words, spells};
use types::Refusal;

// Marks the nodes that the words of the line from a position on name; false at the first word that names none.
fn mark_words(text: &[u8], start: usize, names: &Names, count: usize, nodes: &mut [u32]) -> bool
    requires { Listed names.now count × (node_place count ≤ length nodes.old) }
    ensures words_marked { WordsMarked (names_in names.now count) (words_at text.now start) nodes.old nodes.new result }
    ensures nodes_len_unchanged { length nodes.new ≡ length nodes.old }
{
    for first in line_words(text, start) {
        let Some(id) = id_of(text, names, count, first) else {
            return false;
        };
        mark_output(nodes, id);
    }
    true
}

// The same for the words after `.outputs` of the line that begins at a position; another line names no outputs.
fn mark_line(text: &[u8], at: usize, names: &Names, count: usize, nodes: &mut [u32]) -> bool
    requires { Listed names.now count × (node_place count ≤ length nodes.old) }
    ensures words_marked { WordsMarked (names_in names.now count) (output_words (words_at text.now at)) nodes.old nodes.new result }
    ensures nodes_len_unchanged { length nodes.new ≡ length nodes.old }
{
    let first = after_blanks(text, at);
    if line_ends(text, first) || !spells(text, first, b".outputs") {
        return true;
    }
    mark_words(text, after_word(text, first), names, count, nodes)
}

// Marks the nodes that are put out, line by line, up to the first output that is not defined.
pub fn mark_outputs(
    text: &[u8],
    names: &Names,
    count: usize,
    nodes: &mut [u32],
) -> Result<(), Refusal>
    requires { Listed names.now count × (node_place count ≤ length nodes.old) }
    ensures by_index { (d : ℕ) (M : Model) → model_of text.now ≡ found M → names_in names.now count ≡ names_of M.definitions
        → take (node_place count) nodes.old ≡ rows_from d (λ w. false) 0 M.definitions
        → OutputsMarked d M nodes.new result }
    ensures nodes_len_unchanged { length nodes.new ≡ length nodes.old }
{
    let mut at = 0;
    while at < text.len() {
        let next = after_line(text, at);
        if !mark_line(text, at, names, count, nodes) {
            return Err(Refusal::Name(line_number(text, at)));
        }
        at = next;
    }
    Ok(())
}
