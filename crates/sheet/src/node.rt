// A node's numbers before its operand ids, and the numbers of a difference, read at a cursor.
ghost use Rattle.std.specs.Prelude.{◌≡◌, ◌≤◌, ◌<◌};
ghost use Rattle.maps.specs.Limits.{top_range, size_range};
ghost use Rattle.maps.specs.Form.{read};
ghost use Rattle.maps.specs.Read.{head_form, difference_form, ahead, back};
ghost use Rattle.sheet.specs.Code.{head_read, difference_read};

use number::{Cursor, Read, field_at, field_in};
use ranges::{Field, range_of, ranges_of};
use rows::{Difference, kind_of};
use types::{Level, Node, Refusal};

// The numbers of a node before its operand ids, where a step has the levels up to top, and the position after them.
#[tactic(auto, unfolding(maps::specs::Read::head_form))]
pub fn head_at(sheet: &[u8], c: Cursor, top: u32) -> Result<(Node, Cursor), Refusal>
    requires { top ≤ top_range.high }
    ensures { head_read result ≡ read (head_form top) sheet.now c.at }
{
    let Read { value: code, next } = field_at(sheet, c, Field::Kind)?;
    let Read { value: mark, next } = field_at(sheet, next, Field::Mark)?;
    let ranges = ranges_of(code);
    let Read { value: delay, next } = field_in(sheet, next, ranges.delay.up_to(top))?;
    let Read {
        value: latency,
        next,
    } = field_in(sheet, next, ranges.latency)?;
    let Read { value: q, next } = field_in(sheet, next, ranges.clock_to_q(latency, top))?;
    let Read {
        value: operands,
        next,
    } = field_in(sheet, next, ranges.operands)?;
    let node = Node {
        kind: kind_of(code, latency, q),
        output: mark == 1,
        delay: Level(delay),
        operands,
    };
    Ok((node, next))
}

// How far a difference's code goes ahead: w if it is not negative.
pub fn ahead_of(code: u32) -> u32
    ensures { result ≡ ahead code }
{
    if code % 2 == 0 { code / 2 } else { 0 }
}

// How far it goes back: -w if that is positive.
pub fn back_of(code: u32) -> u32
    ensures { result ≡ back code }
{
    if code % 2 == 0 { 0 } else { code / 2 + 1 }
}

// The numbers of a difference among n nodes, and the position after them.
#[tactic(auto, unfolding(maps::specs::Read::difference_form))]
pub fn difference_at(sheet: &[u8], c: Cursor, n: u32) -> Result<(Difference, Cursor), Refusal>
    requires { (0 < n) × (n ≤ size_range.high) }
    ensures { difference_read result ≡ read (difference_form n) sheet.now c.at }
{
    let ids = range_of(Field::Id).up_to(n - 1);
    let Read { value: from, next } = field_in(sheet, c, ids)?;
    let Read { value: to, next } = field_in(sheet, next, ids)?;
    let Read { value: code, next } = field_at(sheet, next, Field::Weight)?;
    let difference = Difference {
        from,
        to,
        plus: ahead_of(code),
        minus: back_of(code),
    };
    Ok((difference, next))
}
