// The planning call.
ghost use Rattle.std.specs.Prelude.{◌≡◌, List, [], ℕ, ◌≤◌, length, take};
ghost use Rattle.maps.specs.Sheet.{Sheet, size};
ghost use Rattle.maps.specs.Legal.{Legal};
ghost use Rattle.maps.specs.Least.{at};
ghost use Rattle.maps.specs.Plan.{plan};
ghost use Rattle.maps.specs.Outcome.{labelled, cutless, covered, outcome};
ghost use Rattle.rows.specs.Table.{Falling};
ghost use Rattle.bound.specs.Lookup.{labels_in};
ghost use Rattle.bound.specs.Going.{Given, AllKept};
ghost use Rattle.maps.specs.Sizes.{plan_most};
ghost use Rattle.out_bytes.specs.Outcome.{Answered, number_answered, place_answered};
ghost use Rattle.planner.specs.Call.{Own, Made, Short, made_meant};

use bound::Labels;
use cover::cover;
use level::{Cuts, lowest_cutless};
use out_bytes::Answer;
use rows::{Graph, Header, Tables};
use sheet::read_sheet;
use timing::{latency, time_labels};
use types::Refusal;
use writing::{PlanBytes, write_plan};

// Writes the plan of legal labels.
pub fn plan_labels(graph: &Graph, limits: Header, labels: &Labels, output: &mut PlanBytes)
    requires falling { Falling graph.now }
    requires by_index { (S : Sheet) × (differences : List ℕ) × Given S graph.now differences limits × Legal S (at (labels_in (size S) labels.now.steps labels.now.levels)) S.horizon }
    requires bytes_len { length output.old.bytes ≡ plan_most }
    ensures bytes_after { (S : Sheet) (differences : List ℕ) → Given S graph.now differences limits → Legal S (at (labels_in (size S) labels.now.steps labels.now.levels)) S.horizon
        → take output.new.len output.new.bytes ≡ plan S (labels_in (size S) labels.now.steps labels.now.levels) }
    ensures upper_bound { (output.new.len ≤ plan_most) × (output.new.len ≤ length output.new.bytes) }
    ensures bytes_len { length output.new.bytes ≡ plan_most }
{
    let mut used = [false; 256];
    let mut cuts = Cuts::new();
    let last = latency(graph, labels, limits.nodes);
    cover(graph, limits, labels, &mut used, &mut cuts);
    write_plan(last.0, limits.nodes, labels, &used, &cuts, output);
}

// Plans the sheet in the tables, where `kept` has a fitting cut of each logic node.
pub fn plan_kept(
    tables: &Tables,
    limits: Header,
    kept: &mut Cuts,
    output: &mut PlanBytes,
) -> Result<(), Refusal>
    requires falling { Falling tables.now.graph }
    requires given { (S : Sheet) × Given S tables.now.graph tables.now.differences limits × Own S limits × AllKept S kept.old × (cutless S ≡ []) }
    requires bytes_len { length output.old.bytes ≡ plan_most }
    ensures room_value { (S : Sheet) → Given S tables.now.graph tables.now.differences limits → Own S limits → AllKept S kept.old → cutless S ≡ []
        → (room : ℕ) → labelled S room S.windows ≡ made_meant output.new.bytes output.new.len result room }
    ensures short { Short output.new.bytes output.new.len result }
    ensures bytes_len { length output.new.bytes ≡ plan_most }
{
    let mut labels = Labels::EARLIEST;
    time_labels(tables, limits, kept, &mut labels)?;
    plan_labels(&tables.graph, limits, &labels, output);
    Ok(())
}

// Plans the sheet in the tables.
pub fn plan_tables(tables: &Tables, limits: Header, output: &mut PlanBytes) -> Result<(), Refusal>
    requires falling { Falling tables.now.graph }
    requires given { (S : Sheet) × Given S tables.now.graph tables.now.differences limits × Own S limits }
    requires bytes_len { length output.old.bytes ≡ plan_most }
    ensures cutless_value { (S : Sheet) → Given S tables.now.graph tables.now.differences limits → Own S limits
        → (room : ℕ) → covered S room (cutless S) ≡ made_meant output.new.bytes output.new.len result room }
    ensures short { Short output.new.bytes output.new.len result }
    ensures bytes_len { length output.new.bytes ≡ plan_most }
{
    let mut kept = Cuts::new();
    if let Some(v) = lowest_cutless(&tables.graph, &mut kept, limits.nodes, limits.leaves) {
        return Err(Refusal::Cutless(v as usize));
    }
    plan_kept(tables, limits, &mut kept, output)
}

// Makes the plan of a sheet, whatever the room.
pub fn make_plan(sheet: &[u8], output: &mut PlanBytes) -> Result<(), Refusal>
    requires { length output.old.bytes ≡ plan_most }
    ensures made { Made sheet.now output.new.bytes output.new.len result }
    ensures short { Short output.new.bytes output.new.len result }
    ensures bytes_len { length output.new.bytes ≡ plan_most }
{
    let mut tables = Tables::EMPTY;
    let limits = read_sheet(sheet, &mut tables)?;
    plan_tables(&tables, limits, output)
}

// Plans a sheet into a buffer: number, place and every byte of the buffer are those of the defined outcome.
pub fn plan(sheet: &[u8], buffer: &mut [u8]) -> Result<usize, Refusal>
    ensures { Answered (outcome sheet.now (length buffer.old)) (number_answered result) (place_answered result) buffer.old buffer.new }
{
    let mut output = PlanBytes::new();
    make_plan(sheet, &mut output)?;
    output.hand_over(buffer)
}

pub fn maps_plan(sheet: &[u8], buffer: &mut [u8]) -> Answer
    ensures { Answered (outcome sheet.now (length buffer.old)) result.number result.place buffer.old buffer.new }
{
    plan(sheet, buffer).into()
}
