// The types of the planner: steps, levels, labels, kinds, nodes and refusals, with the functions of labels.
#![tactic(auto)]

ghost use Rattle.std.specs.Prelude.{◌≡◌, ◌+◌, ◌≤◌, ◌<◌, min, max};
ghost use Rattle.maps.specs.Label.{label, earliest, leq, later, next_step, plus, ready};
ghost use Rattle.maps.specs.Window.{between, next_open};
ghost use Rattle.types.specs.Code.{label_of, fitted, number_of, place_of};

// A clock step.
#[derive(Clone, Copy, Debug, PartialEq, Eq, PartialOrd, Ord)]
pub struct Step(pub u32);

// An arrival level inside a step.
#[derive(Clone, Copy, Debug, PartialEq, Eq, PartialOrd, Ord)]
pub struct Level(pub u32);

// A label (s, l): by step, and in one step by level. Nothing but the functions of this type combines a step and a level.
#[derive(Clone, Copy, Debug, PartialEq, Eq, PartialOrd, Ord)]
pub struct Label {
    pub step: Step,
    pub level: Level,
}

impl Step {
    // The step n steps on, or the last one that fits.
    pub fn after(self, n: Step) -> Step
        ensures { result.0 ≡ min (self.0 + n.0) 4294967295 }
    {
        Step(self.0.saturating_add(n.0))
    }

    // The next open step from this one on: its remainder by the period is at least `from` and below `to`.
    pub fn next_open(self, period: u32, from: u32, to: u32) -> Step
        requires period_nonzero { 0 < period }
        requires from_bound { self.0 + period + from ≤ 4294967295 }
        ensures { result.0 ≡ next_open period (between 0 from to) self.0 }
    {
        let rest = self.0 % period;
        if rest < from {
            return Step(self.0 + (from - rest));
        }
        if rest < to {
            return self;
        }
        Step(self.0 + (period - rest) + from)
    }

    // The later of two steps.
    pub fn later(self, other: Step) -> Step
        ensures { result.0 ≡ max self.0 other.0 }
    {
        self.max(other)
    }
}

impl Level {
    // The higher of two levels.
    pub fn higher(self, other: Level) -> Level
        ensures { result.0 ≡ max self.0 other.0 }
    {
        self.max(other)
    }
}

impl Label {
    pub const EARLIEST: Label = Label {
        step: Step(0),
        level: Level(0),
    };

    // The earliest label.
    pub fn earliest() -> Label
        ensures { label_of result ≡ earliest }
    {
        Label::EARLIEST
    }

    // The label (step, level).
    pub fn at(step: Step, level: Level) -> Label
        ensures { label_of result ≡ label step.0 level.0 }
    {
        Label { step, level }
    }

    // Whether self equals other or comes before it.
    pub fn at_most(self, other: Label) -> bool
        ensures { result ≡ leq (label_of self) (label_of other) }
    {
        self <= other
    }

    // The later of two labels.
    pub fn later(self, other: Label) -> Label
        ensures { label_of result ≡ later (label_of self) (label_of other) }
    {
        other.max(self)
    }

    // The next step at level delay.
    pub fn next_step(self, delay: Level) -> Label
        ensures { label_of result ≡ fitted (next_step (label_of self) delay.0) }
    {
        Label::at(self.step.after(Step(1)), delay)
    }

    // self plus delay, where a step has the levels up to top.
    pub fn plus(self, delay: Level, top: Level) -> Label
        ensures { label_of result ≡ fitted (plus top.0 (label_of self) delay.0) }
    {
        if u64::from(self.level.0) + u64::from(delay.0) <= u64::from(top.0) {
            Label::at(self.step, Level(self.level.0 + delay.0))
        } else {
            self.next_step(delay)
        }
    }

    // The ready label of a node with the label self: level q of the step that many steps on, where it has a latency.
    pub fn ready(self, latency: Step, q: Level) -> Label
        ensures { label_of result ≡ fitted (ready latency.0 q.0 (label_of self)) }
    {
        if latency.0 == 0 {
            self
        } else {
            Label::at(self.step.after(latency), q)
        }
    }
}

// The kind of a node: only a box has a latency, and after it a clock-to-Q level.
#[derive(Clone, Copy, Debug, PartialEq, Eq)]
pub enum Kind {
    Input,
    Logic,
    Box { latency: Step, clock_to_q: Level },
}

// A node without its operands, which stand in a table beside it.
#[derive(Clone, Copy, Debug, PartialEq, Eq)]
pub struct Node {
    pub kind: Kind,
    pub output: bool,
    pub delay: Level,
    pub operands: u32,
}

// A ground for refusing, with its place.
#[derive(Clone, Copy, Debug, PartialEq, Eq)]
pub enum Refusal {
    // 1, the sheet ends before a number is complete or present
    Ended(usize),
    // 2, the last byte of several is 0, or a third byte is above 127
    Spelling(usize),
    // 3, a value, u and v included, is outside its range
    Range(usize),
    // 4, an operand id is not below the node's own
    Operand(usize),
    // 5, bytes follow the last number
    Trailing(usize),
    // 6, a logic node has no fitting cut
    Cutless(usize),
    // 7, no legal labelling within H, and one within a larger horizon
    Late(usize),
    // 8, the buffer is shorter than what would be written
    Room(usize),
    // 9, a line outside the subset or a row of wrong width
    Subset(usize),
    // 10, a name read before it is defined, defined twice or put out without definition
    Name(usize),
    // 11, a limit
    Limit(usize),
    // 12, no legal labelling under any horizon
    Never(usize),
}

impl Refusal {
    // The ground's number in documents 01 and 02.
    pub fn number(self) -> u32
        ensures { result ≡ number_of self }
    {
        match self {
            Refusal::Ended(_) => 1,
            Refusal::Spelling(_) => 2,
            Refusal::Range(_) => 3,
            Refusal::Operand(_) => 4,
            Refusal::Trailing(_) => 5,
            Refusal::Cutless(_) => 6,
            Refusal::Late(_) => 7,
            Refusal::Room(_) => 8,
            Refusal::Subset(_) => 9,
            Refusal::Name(_) => 10,
            Refusal::Limit(_) => 11,
            Refusal::Never(_) => 12,
        }
    }

    // The place that goes with it.
    pub fn place(self) -> usize
        ensures { result ≡ place_of self }
    {
        match self {
            Refusal::Ended(at)
            | Refusal::Spelling(at)
            | Refusal::Range(at)
            | Refusal::Operand(at)
            | Refusal::Trailing(at)
            | Refusal::Cutless(at)
            | Refusal::Late(at)
            | Refusal::Room(at)
            | Refusal::Subset(at)
            | Refusal::Name(at)
            | Refusal::Limit(at)
            | Refusal::Never(at) => at,
        }
    }
}
