// The windows of a sheet, read at a cursor: the period, how many entries there are, and an entry's box, from and to.
#![tactic(auto)]

ghost use Rattle.std.specs.Prelude.{◌≡◌, ◌≤◌, ◌<◌, length};
ghost use Rattle.maps.specs.Limits.{size_range, period_range, windows_range, box_range, from_range, to_range};
ghost use Rattle.maps.specs.Form.{boxed, tested, in_range, read};
ghost use Rattle.maps.specs.Read.{window_form};
ghost use Rattle.rows.specs.Table.{node_place, boxes_in};
ghost use Rattle.number.specs.Code.{number_meant};
ghost use Rattle.window_read.specs.Code.{window_read};

use number::{Cursor, Read, field_at, field_in};
use ranges::{Field, range_of};
use rows::{Window, code_in};
use types::Refusal;

// The least code of a box's kind.
const BOX: u32 = 2;

// An entry: a box and its window.
#[derive(Clone, Copy)]
pub struct Entry {
    pub id: u32,
    pub window: Window,
}

// The period.
pub fn period_at(sheet: &[u8], c: Cursor) -> Result<Read, Refusal>
    ensures { number_meant result ≡ in_range period_range sheet.now c.at }
{
    field_at(sheet, c, Field::Period)
}

// The count of the entries of a sheet of n nodes.
pub fn count_at(sheet: &[u8], c: Cursor, n: u32) -> Result<Read, Refusal>
    requires { n ≤ size_range.high }
    ensures { number_meant result ≡ in_range (windows_range n) sheet.now c.at }
{
    field_in(sheet, c, range_of(Field::Windows).up_to(n))
}

// The id of a box among n nodes, from low on. A node that is no box is out of range.
fn box_at(sheet: &[u8], c: Cursor, n: u32, low: u32, graph: &[u32]) -> Result<Read, Refusal>
    requires { (0 < n) × (n ≤ size_range.high) × (node_place n ≤ length graph.now) }
    ensures { number_meant result ≡ tested (boxed (box_range n low) (boxes_in graph.now)) sheet.now c.at }
{
    let ids = range_of(Field::Id).up_to(n - 1).at_least(low);
    let id = field_in(sheet, c, ids)?;
    if code_in(graph, id.value) < BOX {
        return Err(Refusal::Range(c.at));
    }
    Ok(id)
}

// The remainder that a window begins with.
fn from_at(sheet: &[u8], c: Cursor, period: u32) -> Result<Read, Refusal>
    requires { (0 < period) × (period ≤ period_range.high) }
    ensures { number_meant result ≡ in_range (from_range period) sheet.now c.at }
{
    field_in(sheet, c, range_of(Field::From).up_to(period - 1))
}

// The remainder that it ends before.
fn to_at(sheet: &[u8], c: Cursor, period: u32, from: u32) -> Result<Read, Refusal>
    requires { (from < period) × (period ≤ period_range.high) }
    ensures { number_meant result ≡ in_range (to_range period from) sheet.now c.at }
{
    let ends = range_of(Field::To).up_to(period).at_least(from + 1);
    field_in(sheet, c, ends)
}

// The entry of a box of the table, its id from low on, and the position after it.
#[tactic(auto, unfolding(maps::specs::Read::window_form))]
pub fn window_at(
    sheet: &[u8],
    c: Cursor,
    n: u32,
    period: u32,
    low: u32,
    graph: &[u32],
) -> Result<(Entry, Cursor), Refusal>
    requires { (0 < n) × (n ≤ size_range.high) × (node_place n ≤ length graph.now) × (0 < period) × (period ≤ period_range.high) }
    ensures { window_read result ≡ read (window_form n (boxes_in graph.now) period low) sheet.now c.at }
{
    let Read { value: id, next } = box_at(sheet, c, n, low, graph)?;
    let Read { value: from, next } = from_at(sheet, next, period)?;
    let Read { value: to, next } = to_at(sheet, next, period, from)?;
    let window = Window { from, to };
    Ok((Entry { id, window }, next))
}
