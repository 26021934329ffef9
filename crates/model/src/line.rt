// One line of a text.
ghost use Rattle.std.specs.Prelude.{◌≡◌, false, ◌<◌, ◌≤◌, Err, length, drop};
ghost use Rattle.types.specs.Code.{number_of, place_of};
ghost use Rattle.blif.specs.Scan.{from, ends_blanks, at_line_end};
ghost use Rattle.blif.specs.Limits.{text_most};
ghost use Rattle.blif.specs.Model.{Model};
ghost use Rattle.grounds.specs.Ground.{ground_number};
ghost use Rattle.definitions.specs.Kept.{KeptIn};
ghost use Rattle.model.specs.Turns.{Turned};

use definitions::{Circuit, keep_line};
use grounds::{Ground, ground_of};
use scan::{after_blanks, after_word, count_words, line_ends, line_number};
use subset::{Stage, stage_after, statement_at};
use types::Refusal;

// The refusal of a line for a ground.
fn refused(ground: Ground, line: usize) -> Refusal
    ensures { (number_of result ≡ ground_number (Err ground)) × (place_of result ≡ line) }
{
    match ground {
        Ground::Subset => Refusal::Subset(line),
        Ground::Name => Refusal::Name(line),
        Ground::Limit => Refusal::Limit(line),
    }
}

// Reads the line that begins at `at` and whose first word begins at `first`; where the next line stands.
pub fn read_words(
    text: &[u8],
    at: usize,
    first: usize,
    stage: Stage,
    delay: u32,
    circuit: &mut Circuit,
) -> Result<Stage, Refusal>
    requires at_in_bounds { (at < length text.now) × (length text.now ≤ text_most) × (drop first text.now ≡ from ends_blanks (drop at text.now)) × (at_line_end (drop first text.now) ≡ false) }
    requires kept { (M : Model) × KeptIn delay M.definitions circuit.old }
    ensures { (M : Model) → KeptIn delay M.definitions circuit.old → Turned text.now delay at stage M circuit.new result }
{
    let rest = after_word(text, first);
    let count = count_words(text, rest);
    let statement = statement_at(text, first, rest, count, stage);
    match ground_of(
        text,
        rest,
        statement,
        count,
        &circuit.names,
        circuit.size.nodes,
    ) {
        Err(ground) => Err(refused(ground, line_number(text, at))),
        Ok(()) => {
            keep_line(text, rest, statement, count, delay, circuit);
            Ok(stage_after(stage, statement, count))
        }
    }
}

// Reads the line that begins at `at`; where the next line stands.
pub fn read_line(
    text: &[u8],
    at: usize,
    stage: Stage,
    delay: u32,
    circuit: &mut Circuit,
) -> Result<Stage, Refusal>
    requires at_in_bounds { (at < length text.now) × (length text.now ≤ text_most) }
    requires kept { (M : Model) × KeptIn delay M.definitions circuit.old }
    ensures { (M : Model) → KeptIn delay M.definitions circuit.old → Turned text.now delay at stage M circuit.new result }
{
    let first = after_blanks(text, at);
    if line_ends(text, first) {
        Ok(stage)
    } else {
        read_words(text, at, first, stage, delay, circuit)
    }
}
