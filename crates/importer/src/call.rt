// The importing call.
ghost use Rattle.std.specs.Prelude.{◌≡◌, true, ℕ, ◌≤◌, length};
ghost use Rattle.out_bytes.specs.Outcome.{Answered, number_answered, place_answered};
ghost use Rattle.blif.specs.Limits.{caller, delay as Delay, callable, text_most};
ghost use Rattle.blif.specs.Model as Blif;
ghost use Rattle.blif.specs.Model.{found, model_of};
ghost use Rattle.blif.specs.Import.{importing};
ghost use Rattle.definitions.specs.Kept.{KeptIn};
ghost use Rattle.importer.specs.Meant.{caller_meant};

use crate::caller::Caller;
use definitions::Circuit;
use model::read_model;
use outputs::mark_outputs;
use records::{NODE, Records};
use types::Refusal;
use writer::write;

// The greatest length of a text, in bytes.
const TEXT_MOST: usize = 65536;

// Writes the sheet of a model that is kept, where all its outputs are defined.
pub fn write_model(
    text: &[u8],
    caller: Caller,
    circuit: &mut Circuit,
    buffer: &mut [u8],
) -> Result<usize, Refusal>
    requires { (length text.now ≤ text_most) × ((d : ℕ) × (M : Blif.Model) × KeptIn d M.definitions circuit.old × (model_of text.now ≡ found M)) }
    ensures { (M : Blif.Model) → callable (caller_meant caller) ≡ true → KeptIn (Delay (caller_meant caller)) M.definitions circuit.old → model_of text.now ≡ found M
        → Answered (importing text.now (caller_meant caller) (length buffer.old)) (number_answered result) (place_answered result) buffer.old buffer.new }
{
    let size = circuit.size;
    mark_outputs(text, &circuit.names, size.nodes, &mut circuit.nodes)?;
    let records = Records {
        leaves: caller.leaves,
        top: caller.top,
        horizon: caller.horizon,
        nodes: &circuit.nodes[..size.nodes * NODE],
        operands: &circuit.operands[..size.operands],
        differences: &[],
        period: 1,
        windows: &[],
    };
    write(&records, buffer)
}

// Imports a text that is not too long for a caller whose numbers are in range, where a table takes `delay` levels.
pub fn import_text(
    text: &[u8],
    caller: Caller,
    delay: u32,
    buffer: &mut [u8],
) -> Result<usize, Refusal>
    requires { length text.now ≤ text_most }
    ensures { callable (caller_meant caller) ≡ true → Delay (caller_meant caller) ≡ delay
        → Answered (importing text.now (caller_meant caller) (length buffer.old)) (number_answered result) (place_answered result) buffer.old buffer.new }
{
    let mut circuit = Circuit::new();
    read_model(text, delay, &mut circuit)?;
    write_model(text, caller, &mut circuit, buffer)
}

// Imports a text into a buffer: number, place and every byte of the buffer are those of the defined outcome.
pub fn import_blif(
    text: &[u8],
    leaves: u32,
    top: u32,
    horizon: u32,
    table: u32,
    level: u32,
    buffer: &mut [u8],
) -> Result<usize, Refusal>
    ensures { Answered (importing text.now (caller leaves top horizon table level) (length buffer.old)) (number_answered result) (place_answered result) buffer.old buffer.new }
{
    let caller = Caller {
        leaves,
        top,
        horizon,
        table,
        level,
    };
    if !caller.is_callable() || TEXT_MOST < text.len() {
        return Err(Refusal::Limit(0));
    }
    import_text(text, caller, caller.delay(), buffer)
}
