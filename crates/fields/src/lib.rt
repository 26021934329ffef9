// A number of the sheet, judged as the reader judges it and then written.
#![tactic(auto)]

ghost use Rattle.std.specs.Prelude.{[], ◌∷◌, ◌≡◌, Bool, ℕ, ◌<◌, ◌≤◌};
ghost use Rattle.maps.specs.Number.{values, bytes_for};
ghost use Rattle.maps.specs.Limits.{size_range};
ghost use Rattle.maps.specs.Form.{among, boxed, under};
ghost use Rattle.maps.specs.Write.{entry};
ghost use Rattle.maps.specs.Sizes.{id_bytes_most};
ghost use Rattle.ranges.specs.Ranges.{span_meant, field_range};
ghost use Rattle.fields.specs.Wrote.{Room, Wrote};

use out_bytes::put;
use ranges::{Field, Span, range_of};
use types::Refusal;

// Where writing stands: the position of the next byte, and which number of the sheet comes next.
#[derive(Clone, Copy)]
pub struct Position {
    pub at: usize,
    pub number: usize,
}

// Writes a number in a range.
pub fn put_in(bytes: &mut [u8], position: Position, span: Span, x: u64) -> Result<Position, Refusal>
    requires { (span.high < values) × Room (bytes_for span.high) bytes.old position }
    ensures { Wrote (entry (among (span_meant span)) x ∷ []) bytes.old bytes.new position result }
{
    if x < u64::from(span.low) || u64::from(span.high) < x {
        return Err(Refusal::Range(position.number));
    }
    let at = put(bytes, position.at, x as u32);
    Ok(Position {
        at,
        number: position.number + 1,
    })
}

// Writes a number in the range of its field.
pub fn put_field(
    bytes: &mut [u8],
    position: Position,
    field: Field,
    x: u64,
) -> Result<Position, Refusal>
    requires { Room (bytes_for (field_range field).high) bytes.old position }
    ensures { Wrote (entry (among (field_range field)) x ∷ []) bytes.old bytes.new position result }
{
    put_in(bytes, position, range_of(field), x)
}

// Writes a number in a range that must be the id of a box too: `valid` says whether it is.
pub fn put_box(
    bytes: &mut [u8],
    position: Position,
    span: Span,
    valid: bool,
    x: u64,
) -> Result<Position, Refusal>
    requires { (span.high < values) × Room (bytes_for span.high) bytes.old position }
    ensures { (is_box : ℕ → Bool) → is_box x ≡ valid → Wrote (entry (boxed (span_meant span) is_box) x ∷ []) bytes.old bytes.new position result }
{
    if valid {
        put_in(bytes, position, span, x)
    } else {
        Err(Refusal::Range(position.number))
    }
}

// Writes an operand of the node own.
pub fn put_operand(
    bytes: &mut [u8],
    position: Position,
    own: u32,
    x: u32,
) -> Result<Position, Refusal>
    requires { (own ≤ size_range.high) × Room id_bytes_most bytes.old position }
    ensures { Wrote (entry (under own) x ∷ []) bytes.old bytes.new position result }
{
    if own <= x {
        return Err(Refusal::Operand(position.number));
    }
    let at = put(bytes, position.at, x);
    Ok(Position {
        at,
        number: position.number + 1,
    })
}
