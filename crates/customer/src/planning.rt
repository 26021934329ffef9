// The planning call, under the customer's three demands.
ghost use Rattle.std.specs.Prelude.{length};
ghost use Rattle.demands.specs.Demands.{Demand1, Demand2, Demand3};
ghost use Rattle.demands.specs.Bounds.{Bounded};
ghost use Rattle.demands.specs.Keeping.{FormerKept, UnwindowedKept};
ghost use Rattle.demands.specs.Windows.{WindowRule};

use out_bytes::Answer;
use planner::maps_plan;

// Plans a sheet into a buffer.
pub fn plan_sheet(sheet: &[u8], buffer: &mut [u8]) -> Answer
    ensures demand_1 { Demand1 sheet.now buffer.old result.number result.place buffer.new }
    ensures demand_2 { Demand2 sheet.now buffer.old result.number result.place buffer.new }
    ensures demand_3 { Demand3 sheet.now buffer.old result.number result.place buffer.new }
    ensures windows { WindowRule sheet.now }
    ensures keeps { FormerKept sheet.now buffer.old result.number result.place buffer.new }
    ensures keeps_unwindowed { UnwindowedKept sheet.now buffer.old result.number result.place buffer.new }
    ensures bounds { Bounded (length buffer.old) result.number result.place }
{
    maps_plan(sheet, buffer)
}
