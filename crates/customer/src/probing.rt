// The calls for tests and benchmarks.
ghost use Rattle.probe.specs.Probe.{HasCut, CutAnswer};
ghost use Rattle.demands.specs.Reading.{Reads};

use out_bytes::Answer;
use probe::{maps_cut, maps_has_cut, maps_read};
use rows::{Differences, Graph};

// Reads a sheet into two tables.
pub fn read_tables(sheet: &[u8], graph: &mut Graph, differences: &mut Differences) -> Answer
    ensures { Reads sheet.now graph.old differences.old result.number result.place graph.new differences.new }
{
    maps_read(sheet, graph, differences)
}

// Whether a node has a cut of at most k leaves, all of them allowed.
pub fn has_cut(sheet: &[u8], allowed: &[u8; 256], v: u32, k: u32) -> u32
    ensures { HasCut sheet.now allowed.now v k result }
{
    maps_has_cut(sheet, allowed, v, k)
}

// The chosen one of these cuts.
pub fn chosen_cut(sheet: &[u8], allowed: &[u8; 256], v: u32, k: u32, list: &mut [u32; 8]) -> u32
    ensures { CutAnswer sheet.now allowed.now v k list.old result list.new }
{
    maps_cut(sheet, allowed, v, k, list)
}
