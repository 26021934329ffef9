// The parts of a sheet's bus cycle that have a fixed count of numbers: the period with the count of windows, and a window.
#![tactic(auto)]

ghost use Rattle.std.specs.Prelude.{[], ◌∷◌, ◌+◌, ◌<◌, ◌≤◌, length};
ghost use Rattle.maps.specs.Number.{bytes_for};
ghost use Rattle.maps.specs.Limits.{size_range, period_range, windows_range, box_range, from_range, to_range};
ghost use Rattle.maps.specs.Form.{among, boxed};
ghost use Rattle.maps.specs.Write.{entry, window_numbers};
ghost use Rattle.maps.specs.Sizes.{id_bytes_most, window_bytes_most};
ghost use Rattle.records.specs.Rows.{window_place, window_in, box_at};
ghost use Rattle.fields.specs.Wrote.{Room, Wrote};

use fields::{Position, put_box, put_field, put_in};
use ranges::{Field, range_of};
use records::{is_box, window_at};
use types::Refusal;

// Writes the period, and how many windows there are among n nodes.
pub fn put_period(
    period: u32,
    count: usize,
    n: u32,
    bytes: &mut [u8],
    position: Position,
) -> Result<Position, Refusal>
    requires { (n ≤ size_range.high) × Room (bytes_for period_range.high + bytes_for size_range.high) bytes.old position }
    ensures { Wrote (entry (among period_range) period ∷ entry (among (windows_range n)) count ∷ []) bytes.old bytes.new position result }
{
    let position = put_field(bytes, position, Field::Period, period as u64)?;
    put_in(
        bytes,
        position,
        range_of(Field::Windows).up_to(n),
        count as u64,
    )
}

// Writes the id of a window's box among n nodes, which is at least `low`.
fn put_id(
    nodes: &[u32],
    id: u32,
    low: u32,
    n: u32,
    bytes: &mut [u8],
    position: Position,
) -> Result<Position, Refusal>
    requires { (0 < n) × (n ≤ size_range.high) × Room id_bytes_most bytes.old position }
    ensures { Wrote (entry (boxed (box_range n low) (box_at nodes.now)) id ∷ []) bytes.old bytes.new position result }
{
    let boxes = range_of(Field::Id).up_to(n - 1).at_least(low);
    put_box(bytes, position, boxes, is_box(nodes, id), id as u64)
}

// Writes from and to of a window.
fn put_times(
    from: u32,
    to: u32,
    period: u32,
    bytes: &mut [u8],
    position: Position,
) -> Result<Position, Refusal>
    requires { (0 < period) × (period ≤ period_range.high) × Room (bytes_for period_range.high + bytes_for period_range.high) bytes.old position }
    ensures { Wrote (entry (among (from_range period)) from ∷ entry (among (to_range period from)) to ∷ []) bytes.old bytes.new position result }
{
    let froms = range_of(Field::From).up_to(period - 1);
    let position = put_in(bytes, position, froms, from as u64)?;
    let tos = range_of(Field::To).up_to(period).at_least(from + 1);
    put_in(bytes, position, tos, to as u64)
}

// Writes window j among n nodes, whose box has an id of at least `low`.
pub fn put_window(
    nodes: &[u32],
    windows: &[u32],
    j: usize,
    low: u32,
    n: u32,
    period: u32,
    bytes: &mut [u8],
    position: Position,
) -> Result<Position, Refusal>
    requires { (window_place (j + 1) ≤ length windows.now) × (0 < n) × (n ≤ size_range.high) × (0 < period) × (period ≤ period_range.high) × Room window_bytes_most bytes.old position }
    ensures { Wrote (window_numbers n (box_at nodes.now) period low (window_in windows.now j)) bytes.old bytes.new position result }
{
    let row = window_at(windows, j);
    let position = put_id(nodes, row.id, low, n, bytes, position)?;
    put_times(row.from, row.to, period, bytes, position)
}
