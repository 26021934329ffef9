// Reading a sheet into two tables, which a refusal leaves as they were.
ghost use Rattle.std.specs.Prelude.{◌≡◌};
ghost use Rattle.maps.specs.Read.{parse};
ghost use Rattle.sheet.specs.Answer.{read_after, answer_number, answer_place};

use out_bytes::Answer;
use rows::{Differences, Graph, Tables};
use sheet::read_sheet;

// Document 01's number and place; 0 and 0 where the sheet reads.
pub fn maps_read(sheet: &[u8], graph: &mut Graph, differences: &mut Differences) -> Answer
    ensures { (result.number ≡ answer_number (read_after (parse sheet.now) graph.old differences.old).answer)
        × (result.place ≡ answer_place (read_after (parse sheet.now) graph.old differences.old).answer)
        × (graph.new ≡ (read_after (parse sheet.now) graph.old differences.old).graph)
        × (differences.new ≡ (read_after (parse sheet.now) graph.old differences.old).differences) }
{
    let mut tables = Tables::EMPTY;
    match read_sheet(sheet, &mut tables) {
        Ok(_) => {
            *graph = tables.graph;
            *differences = tables.differences;
            Answer::from(Ok(0))
        }
        Err(why) => Answer::from(Err(why)),
    }
}
