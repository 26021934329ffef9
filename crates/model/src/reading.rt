// The model of a text.
ghost use Rattle.std.specs.Prelude.{◌≡◌, [], ◌≤◌, length};
ghost use Rattle.blif.specs.Limits.{text_most};
ghost use Rattle.subset.specs.Meant.{stage_meant};
ghost use Rattle.definitions.specs.Kept.{KeptIn};
ghost use Rattle.model.specs.Turns.{LinesRead, LastStage, ModelRead};

use crate::line::read_line;
use definitions::Circuit;
use scan::{after_line, line_count};
use subset::Stage;
use types::Refusal;

// Reads all lines, up to the first faulty one; where a line after them stands.
pub fn read_lines(text: &[u8], delay: u32, circuit: &mut Circuit) -> Result<Stage, Refusal>
    requires { (length text.now ≤ text_most) × KeptIn delay [] circuit.old }
    ensures { LinesRead text.now delay circuit.new result }
{
    let mut at = 0;
    let mut stage = Stage::First;
    while at < text.len() {
        let next = after_line(text, at);
        stage = read_line(text, at, stage, delay, circuit)?;
        at = next;
    }
    Ok(stage)
}

// Whether a line after `.end` stands here.
pub fn is_last(stage: Stage) -> bool
    ensures { LastStage (stage_meant stage) result }
{
    matches!(stage, Stage::Last)
}

// Reads the model of a text: its names, nodes and operands, or the first fault.
pub fn read_model(text: &[u8], delay: u32, circuit: &mut Circuit) -> Result<(), Refusal>
    requires { (length text.now ≤ text_most) × KeptIn delay [] circuit.old }
    ensures { ModelRead text.now delay circuit.new result }
{
    let stage = read_lines(text, delay, circuit)?;
    if is_last(stage) {
        Ok(())
    } else {
        Err(Refusal::Subset(line_count(text) + 1))
    }
}
