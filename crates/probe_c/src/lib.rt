// The calls of the probe for C: each answers what the probe's call answers.
#![tactic(auto)]

ghost use Rattle.std.specs.Prelude.{◌≡◌};
ghost use Rattle.maps.specs.Read.{parse};
ghost use Rattle.sheet.specs.Answer.{read_after, answer_number, answer_place};
ghost use Rattle.probe.specs.Probe.{HasCut, CutAnswer};

use out_bytes::Answer;
use rows::{Differences, Graph};

#[unsafe(no_mangle)]
pub extern "C" fn maps_read(
    sheet: &[u8],
    graph: &mut Graph,
    differences: &mut Differences,
) -> Answer
    ensures { (result.number ≡ answer_number (read_after (parse sheet.now) graph.old differences.old).answer)
        × (result.place ≡ answer_place (read_after (parse sheet.now) graph.old differences.old).answer)
        × (graph.new ≡ (read_after (parse sheet.now) graph.old differences.old).graph)
        × (differences.new ≡ (read_after (parse sheet.now) graph.old differences.old).differences) }
{
    probe::maps_read(sheet, graph, differences)
}

#[unsafe(no_mangle)]
pub extern "C" fn maps_has_cut(sheet: &[u8], allowed: &[u8; 256], v: u32, k: u32) -> u32
    ensures { HasCut sheet.now allowed.now v k result }
{
    probe::maps_has_cut(sheet, allowed, v, k)
}

#[unsafe(no_mangle)]
pub extern "C" fn maps_cut(
    sheet: &[u8],
    allowed: &[u8; 256],
    v: u32,
    k: u32,
    list: &mut [u32; 8],
) -> u32
    ensures { CutAnswer sheet.now allowed.now v k list.old result list.new }
{
    probe::maps_cut(sheet, allowed, v, k, list)
}
