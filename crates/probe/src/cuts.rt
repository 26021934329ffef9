// Questions about the cones of a logic node of a sheet whose leaves are all allowed.
ghost use Rattle.std.specs.Prelude.{◌≡◌, true, false, ◌≤◌, ◌<◌, length, take};
ghost use Rattle.rows.specs.Table.{no_nodes, no_differences};
ghost use Rattle.probe.specs.Probe.{Coded, Prepared, HasCut, padded, CutAnswer};

use cut::{ask, choose, code_for};
use flow::Code;
use rows::{Graph, Tables, kind_in};
use sheet::read_sheet;
use types::Kind;

// The codes of the nodes below v, and of v.
fn set_codes(graph: &Graph, allowed: &[u8; 256], code: &mut [Code; 256], v: u32)
    requires { v < 256 }
    ensures { Coded graph.now allowed.now code.new v }
{
    *code = [Code::Inner; 256];
    for u in 0..v {
        let i = u as usize;
        code[i] = code_for(kind_in(graph, u), allowed[i] != 0);
    }
}

// Reads the sheet into tables that it empties, and sets the codes of the question; false where v is none of its logic nodes, it does not read or k is above 6.
fn prepare(
    sheet: &[u8],
    allowed: &[u8; 256],
    v: u32,
    k: u32,
    tables: &mut Tables,
    code: &mut [Code; 256],
) -> bool
    ensures { Prepared result sheet.now allowed.now v k tables.new.graph code.new }
{
    *tables = Tables::EMPTY;
    let Ok(header) = read_sheet(sheet, tables) else {
        return false;
    };
    if k > 6 || header.nodes <= v {
        return false;
    }
    match kind_in(&tables.graph, v) {
        Kind::Input | Kind::Box { .. } => false,
        Kind::Logic => {
            set_codes(&tables.graph, allowed, code, v);
            true
        }
    }
}

// Writes the first `count` leaves, and 0 after them.
fn write_cut(leaves: &[u32; 8], list: &mut [u32; 8], count: u32)
    requires { (count ≤ 8) × (count ≤ length leaves.now) }
    ensures { list.new ≡ padded (take count leaves.now) }
{
    *list = [0; 8];
    let count = count as usize;
    list[..count].copy_from_slice(&leaves[..count]);
}

// 1 where v has an allowed cut of at most k leaves, 0 where it has none, 255 where the question is outside the sheet.
pub fn maps_has_cut(sheet: &[u8], allowed: &[u8; 256], v: u32, k: u32) -> u32
    ensures { HasCut sheet.now allowed.now v k result }
{
    let mut tables = Tables::EMPTY;
    let mut code = [Code::Inner; 256];
    if !prepare(sheet, allowed, v, k, &mut tables, &mut code) {
        return 255;
    }
    let mut leaves = [0u32; 8];
    match ask(&tables.graph, &code, &mut leaves, v, k) {
        Some(_) => 1,
        None => 0,
    }
}

// The number of leaves of the chosen one of the allowed cuts of v, which `list` then holds, with 0 after its leaves; k + 1 where every allowed
// cut has more than k leaves or there is none, and 255 where the question is outside the sheet: `list` then keeps its values.
pub fn maps_cut(sheet: &[u8], allowed: &[u8; 256], v: u32, k: u32, list: &mut [u32; 8]) -> u32
    ensures { CutAnswer sheet.now allowed.now v k list.old result list.new }
{
    let mut tables = Tables::EMPTY;
    let mut code = [Code::Inner; 256];
    if !prepare(sheet, allowed, v, k, &mut tables, &mut code) {
        return 255;
    }
    let mut leaves = [0u32; 8];
    match choose(&tables.graph, &code, &mut leaves, v, k) {
        Some(count) => {
            write_cut(&leaves, list, count);
            count
        }
        None => k + 1,
    }
}
