// The least labels: passes from given labels on, with a sweep over the differences between two of them, until every difference holds, a label ends
// after the horizon, or nodes float.
ghost use Rattle.std.specs.Prelude.{◌≡◌, true, List, [], ℕ, ◌+◌, ◌<◌, ◌≤◌, eqb, is_ok};
ghost use Rattle.maps.specs.Sheet.{Sheet};
ghost use Rattle.maps.specs.Least.{at, least_within, late, least};
ghost use Rattle.maps.specs.Outcome.{cutless};
ghost use Rattle.relax.specs.Guard.{unbounded};
ghost use Rattle.rows.specs.Cells.{Ends};
ghost use Rattle.bound.specs.Lookup.{labels_in, Linked, Heeding};
ghost use Rattle.bound.specs.Going.{Given, Timed, AllKept};
ghost use Rattle.bound.specs.Bound.{Summed};
ghost use Rattle.bound.specs.Sought.{of_search};
ghost use Rattle.pass.specs.Turn.{Underway, Onward};
ghost use Rattle.pass.specs.declared.Course.TheVariants.{Whole};
ghost use Rattle.sweep.specs.Sweep.{SomeFails};
ghost use Rattle.hold.specs.Mark.{Floats};
ghost use Rattle.schedule.specs.Round.{shift_for, shift_in, Started, CourseEnds, HeedEnds, Resumable, Relaxed, Testable, no_test};

use bound::{Labels, Late, Search, link};
use hold::floats;
use level::Cuts;
use pass::{Course, pass};
use rows::{Graph, Header, Tables, delay_in};
use sweep::{differences_hold, freeze, sweep, thaw};
use types::Label;

// How a round is done: whether its pass is whole, whether nodes are tested for floating after it, and whether those that have not moved are frozen.
#[derive(Clone, Copy)]
pub struct Mode {
    pub whole: bool,
    pub test: bool,
    pub freeze: bool,
}

// The rounds with a whole pass. Most sheets want no more; later ones are mostly chains of rises, link by link, and a pass that stops at a link does not
// settle the nodes above it in vain.
const WHOLE_UP_TO: u32 = 4;

// The rounds after which nodes are frozen. Fewer settle most sheets, and there freezing only adds to them.
const FREEZE_FROM: u32 = 512;

// The round after which the first floating-set test comes, where labels have no lower bounds.
pub const FIRST_TEST: u32 = 2;

// More rounds than there can be within a sheet's own horizon, 256 times 65,536: under lower bounds no test comes.
pub const NO_TEST: u32 = 16777216;

// How a round is done: with a test where it is due, and then whole.
pub fn mode_of(round: u32, due: u32) -> Mode
    ensures test_value { result.test ≡ eqb round due }
    ensures whole_value { result.test ≡ true → result.whole ≡ true }
{
    let test = round == due;
    Mode {
        whole: test || round <= WHOLE_UP_TO,
        test,
        freeze: test && round >= FREEZE_FROM,
    }
}

// The first labels: the earliest, with each node's delay as level, unless a latency alone is past the horizon.
pub fn start(graph: &Graph, labels: &mut Labels, n: u32, horizon: u32) -> Result<(), Late>
    requires { n ≤ 256 }
    ensures { Started graph.now labels.new.steps labels.new.levels n horizon (is_ok result) }
{
    labels.clear();
    for v in 0..n {
        let first = Label::at(Label::EARLIEST.step, delay_in(graph, v));
        labels.place_label(graph, v, first, horizon)?;
    }
    Ok(())
}

// The round after which the next test comes: the second, the third and the fourth, then each twice as late as the one before.
pub fn next_due(due: u32) -> u32
    requires { (0 < due) × (due < 2147483648) }
    ensures { (due < result) × (result ≤ due + due) }
{
    if due < 4 { due + 1 } else { due + due }
}

// Whether a pass of this course was the last: it was whole, and every difference holds.
pub fn is_last(course: Course, search: &Search, labels: &Labels) -> bool
    requires m_bound { search.now.limits.differences ≤ 1024 }
    requires summed { course ≡ Whole → (i : ℕ) → i < search.now.limits.differences → Summed search.now.tables.now.differences labels.now.steps i }
    ensures { CourseEnds search.now.tables.now.differences search.now.first.now labels.now.steps search.now.limits.differences course result }
{
    match course {
        Course::Stopped => false,
        Course::Whole => differences_hold(search, labels),
    }
}

// The steps by which every node can move without leaving its window: the period, or 1 where no node has one.
pub fn shift_of(limits: Header) -> u32
    ensures { result ≡ shift_for limits.period limits.windows }
{
    if limits.windows == 0 {
        1
    } else {
        limits.period
    }
}

// Whether some node floats.
pub fn some_float(search: &Search, labels: &Labels) -> bool
    requires by_index { (S : Sheet) × (levels : List ℕ) × Given S search.now.tables.now.graph search.now.tables.now.differences search.now.limits × Timed S search.now.limits.horizon labels.now.steps levels }
    requires linked { Linked search.now.tables.now.differences search.now.limits.differences search.now.first.now search.now.next.now }
    ensures { Floats search.now.tables.now.graph search.now.tables.now.differences labels.now.steps (shift_in search.now.limits) search.now.limits.nodes search.now.limits.differences result }
{
    floats(search, labels, shift_of(search.limits))
}

// Which differences are heeded next, unless a test finds that a node floats. After a freeze these are the differences into nodes that have
// moved since the freeze before; where they hold, all are.
pub fn heed(
    search: &Search,
    labels: &Labels,
    since: &mut [u32; 256],
    heeded: &mut [u32; 256],
    mode: Mode,
) -> Result<(), Late>
    requires by_index { (S : Sheet) × (levels : List ℕ) × Given S search.now.tables.now.graph search.now.tables.now.differences search.now.limits × Timed S search.now.limits.horizon labels.now.steps levels }
    requires linked { Linked search.now.tables.now.differences search.now.limits.differences search.now.first.now search.now.next.now }
    requires heeding { Heeding search.now.tables.now.differences search.now.limits.differences heeded.old search.now.next.now }
    requires some_fails { SomeFails search.now.tables.now.differences search.now.first.now labels.now.steps search.now.limits.differences }
    ensures { HeedEnds search.now.tables.now.graph search.now.tables.now.differences search.now.limits search.now.next.now labels.now.steps heeded.new mode.test (is_ok result) }
{
    if mode.test && some_float(search, labels) {
        return Err(Late);
    }
    if mode.freeze {
        freeze(search, labels, since, heeded);
    }
    thaw(search, labels, heeded);
    Ok(())
}

// Rounds until one is the last, with a sweep after each, and the floating-set test after some of them, from round `testing` on. Labels never fall, so a
// node whose label starts at its lower bound heeds it without a table of bounds.
pub fn relax(
    search: &Search,
    kept: &mut Cuts,
    labels: &mut Labels,
    testing: u32,
) -> Result<(), Late>
    requires linked { Linked search.now.tables.now.differences search.now.limits.differences search.now.first.now search.now.next.now }
    requires underway { of_search Underway search.now kept.old labels.old.steps labels.old.levels 0 }
    requires testing_nonzero { (0 < testing) × (testing ≤ no_test) }
    ensures { of_search Onward search.now kept.old labels.old.steps labels.old.levels 0
        (λ S bound. Testable search.now.limits bound testing → Relaxed S bound search.now.limits.horizon kept.new labels.new.steps labels.new.levels (is_ok result)) }
{
    let mut heeded = *search.first;
    let mut since = labels.steps;
    let mut rounds: u32 = 0;
    let mut due = testing;
    loop {
        rounds += 1;
        let mode = mode_of(rounds, due);
        let heeding = Search {
            first: &heeded,
            ..*search
        };
        let course = pass(&heeding, kept, labels, mode.whole)?;
        if is_last(course, search, labels) {
            return Ok(());
        }
        heed(search, labels, &mut since, &mut heeded, mode)?;
        let heeding = Search {
            first: &heeded,
            ..*search
        };
        sweep(&heeding, labels)?;
        if mode.test {
            due = next_due(due);
        }
    }
}

// Goes on from labels that are after no legal labelling to the least legal ones within the horizon of the limits, of those that heed the lower bounds,
// unless there are none. `kept` has a fitting cut of each logic node. Under lower bounds `testing` is NO_TEST. Where they are found, the labels can be gone
// on from; otherwise nothing is known of them or of `kept`.
pub fn resume(
    tables: &Tables,
    limits: Header,
    kept: &mut Cuts,
    labels: &mut Labels,
    testing: u32,
) -> Result<(), Late>
    requires by_index { (S : Sheet) × (bound : ℕ → ℕ) × Resumable S bound tables.now.graph tables.now.differences limits kept.old labels.old.steps labels.old.levels }
    requires testing_nonzero { (0 < testing) × (testing ≤ no_test) }
    ensures { (S : Sheet) (bound : ℕ → ℕ) → Resumable S bound tables.now.graph tables.now.differences limits kept.old labels.old.steps labels.old.levels
        → Testable limits bound testing → Relaxed S bound limits.horizon kept.new labels.new.steps labels.new.levels (is_ok result) }
{
    let mut first = [0u32; 256];
    let mut next = [0u32; 1024];
    link(
        &tables.differences,
        &mut first,
        &mut next,
        limits.differences,
    );
    let search = Search {
        tables,
        limits,
        first: &first,
        next: &next,
    };
    relax(&search, kept, labels, testing)
}

// Seeks the least legal labels within the horizon of the limits, from the first labels on, unless there are none.
pub fn seek(
    tables: &Tables,
    limits: Header,
    kept: &mut Cuts,
    labels: &mut Labels,
) -> Result<(), Late>
    requires { (S : Sheet) × Given S tables.now.graph tables.now.differences limits × AllKept S kept.old }
    ensures { (S : Sheet) → Given S tables.now.graph tables.now.differences limits → AllKept S kept.old
        → Relaxed S unbounded limits.horizon kept.new labels.new.steps labels.new.levels (is_ok result) }
{
    start(&tables.graph, labels, limits.nodes, limits.horizon)?;
    resume(tables, limits, kept, labels, FIRST_TEST)
}

// Writes the least legal labels within the horizon of the limits, unless no labelling is legal within it. `kept` has a fitting cut of each logic node.
pub fn least_labels(
    tables: &Tables,
    limits: Header,
    kept: &mut Cuts,
    labels: &mut Labels,
) -> Result<(), Late>
    requires { (S : Sheet) × Given S tables.now.graph tables.now.differences limits × AllKept S kept.old }
    ensures { (S : Sheet) → Given S tables.now.graph tables.now.differences limits → AllKept S kept.old → cutless S ≡ []
        → Ends (is_ok result) (least_within S limits.horizon ≡ least (labels_in limits.nodes labels.new.steps labels.new.levels)) (least_within S limits.horizon ≡ late) }
{
    seek(tables, limits, kept, labels)
}
