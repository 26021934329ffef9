// Reads a whole sheet: the header, the nodes, the differences, the windows, and nothing after them.
ghost use Rattle.std.specs.Prelude.{◌≡◌, List, ℕ, ◌≤◌, ◌<◌};
ghost use Rattle.maps.specs.Form.{read};
ghost use Rattle.maps.specs.Read.{header_form};
ghost use Rattle.maps.specs.Limits.{top_range, size_range, count_range};
ghost use Rattle.rows.specs.Code.{header_meant};
ghost use Rattle.sheet.specs.Code.{header_read, answer_meant};
ghost use Rattle.sheet.specs.Answer.{tables};
ghost use Rattle.sheet.specs.Fill.{cycle_into, rows_into, tables_into};

use crate::fill::{read_differences, read_nodes, read_windows};
use number::{Cursor, Read, field_at};
use ranges::Field;
use rows::{Graph, Header, Tables};
use types::Refusal;
use window_read::{count_at, period_at};

// The five numbers at the head of a sheet, with a period of 1 and no entry, and the position after them.
#[tactic(auto, unfolding(maps::specs::Read::header_form))]
pub fn header_at(sheet: &[u8]) -> Result<(Header, Cursor), Refusal>
    ensures { header_read result ≡ read header_form sheet.now 0 }
{
    let Read {
        value: leaves,
        next,
    } = field_at(sheet, Cursor { at: 0 }, Field::Leaves)?;
    let Read { value: top, next } = field_at(sheet, next, Field::Top)?;
    let Read {
        value: horizon,
        next,
    } = field_at(sheet, next, Field::Horizon)?;
    let Read { value: nodes, next } = field_at(sheet, next, Field::Nodes)?;
    let Read {
        value: differences,
        next,
    } = field_at(sheet, next, Field::Differences)?;
    let header = Header {
        leaves,
        top,
        horizon,
        nodes,
        differences,
        period: 1,
        windows: 0,
    };
    Ok((header, next))
}

// Reads the period and the entries of a sheet, whose nodes the table holds, and nothing after them.
#[tactic(auto, unfolding(crate::specs::Fill::cycle_into, crate::specs::Fill::got_on))]
pub fn fill_cycle(
    sheet: &[u8],
    c: Cursor,
    header: Header,
    graph: &mut Graph,
) -> Result<Header, Refusal>
    requires { (0 < header.nodes) × (header.nodes ≤ size_range.high) }
    ensures { (d : List ℕ) → tables (answer_meant result) graph.new d ≡ cycle_into sheet.now (header_meant header) c.at graph.old d }
{
    let Read {
        value: period,
        next,
    } = period_at(sheet, c)?;
    let Read {
        value: windows,
        next,
    } = count_at(sheet, next, header.nodes)?;
    let end = read_windows(sheet, next, header.nodes, period, windows, graph)?;
    if end.at < sheet.len() {
        return Err(Refusal::Trailing(end.at));
    }
    Ok(Header {
        period,
        windows,
        ..header
    })
}

// Reads the nodes and the differences of a sheet into the two tables, and then its period and entries.
#[tactic(auto, unfolding(crate::specs::Fill::rows_into, crate::specs::Fill::got_on))]
pub fn fill_rows(
    sheet: &[u8],
    c: Cursor,
    header: Header,
    into: &mut Tables,
) -> Result<Header, Refusal>
    requires { (header.top ≤ top_range.high) × (0 < header.nodes) × (header.nodes ≤ size_range.high) × (header.differences ≤ count_range.high) }
    ensures { tables (answer_meant result) into.new.graph into.new.differences ≡ rows_into sheet.now (header_meant header) c.at into.old.graph into.old.differences }
{
    let next = read_nodes(sheet, c, header.top, header.nodes, &mut into.graph)?;
    let next = read_differences(
        sheet,
        next,
        header.nodes,
        header.differences,
        &mut into.differences,
    )?;
    fill_cycle(sheet, next, header, &mut into.graph)
}

// Reads a sheet: its header, and its nodes, differences and windows into two tables, where all other numbers stay. A refusal leaves there what
// was read before it.
#[tactic(auto, unfolding(crate::specs::Fill::tables_into, crate::specs::Fill::got_on))]
pub fn read_sheet(sheet: &[u8], into: &mut Tables) -> Result<Header, Refusal>
    ensures { tables (answer_meant result) into.new.graph into.new.differences ≡ tables_into sheet.now into.old.graph into.old.differences }
{
    let (header, next) = header_at(sheet)?;
    fill_rows(sheet, next, header, into)
}
