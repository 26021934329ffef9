// The ranges of the sheet's fields, each once: those of every field that is read alike in each node, and document 01's table by kind. Whoever
// reads or writes a sheet takes them from here.
#![tactic(auto)]

ghost use Rattle.std.specs.Prelude.{◌≡◌, min, max};
ghost use Rattle.ranges.specs.Ranges.{kind_ranges, span_of, clock_meant, field_range};

// The values from low to high.
#[derive(Clone, Copy, Debug, PartialEq, Eq)]
pub struct Span {
    pub low: u32,
    pub high: u32,
}

// The ranges of a node's fields: d, lat, q where lat is 1 or more, operand count. A delay and a q are also at most T.
#[derive(Clone, Copy, Debug, PartialEq, Eq)]
pub struct Ranges {
    pub delay: Span,
    pub latency: Span,
    pub clock: Span,
    pub operands: Span,
}

// By kind: input, logic, box.
const KIND_RANGES: [Ranges; 3] = [
    Ranges {
        delay: Span { low: 0, high: 0 },
        latency: Span { low: 0, high: 0 },
        clock: Span { low: 0, high: 0 },
        operands: Span { low: 0, high: 0 },
    },
    Ranges {
        delay: Span { low: 1, high: 64 },
        latency: Span { low: 0, high: 0 },
        clock: Span { low: 0, high: 0 },
        operands: Span { low: 1, high: 6 },
    },
    Ranges {
        delay: Span { low: 0, high: 64 },
        latency: Span { low: 0, high: 255 },
        clock: Span { low: 0, high: 64 },
        operands: Span { low: 0, high: 6 },
    },
];

// The fields whose range does not depend on a kind: K, T, H, n, m, a node's kind and mark, an id (also below n), the w of a difference; P, how many
// entries of windows there are (also at most n), and an entry's from (also below P) and to (also above from and at most P).
#[derive(Clone, Copy, Debug, PartialEq, Eq)]
pub enum Field {
    Leaves,
    Top,
    Horizon,
    Nodes,
    Differences,
    Kind,
    Mark,
    Id,
    Weight,
    Period,
    Windows,
    From,
    To,
}

// In the order of the fields; w by its code.
const FIELD_RANGES: [Span; 13] = [
    Span { low: 2, high: 6 },
    Span { low: 1, high: 64 },
    Span {
        low: 0,
        high: 65535,
    },
    Span { low: 1, high: 256 },
    Span { low: 0, high: 1024 },
    Span { low: 0, high: 2 },
    Span { low: 0, high: 1 },
    Span { low: 0, high: 255 },
    Span {
        low: 0,
        high: 131070,
    },
    Span { low: 1, high: 64 },
    Span { low: 0, high: 256 },
    Span { low: 0, high: 63 },
    Span { low: 1, high: 64 },
];

// The ranges of a kind, by its code in the sheet; every code from 2 on is a box's.
pub fn ranges_of(code: u32) -> Ranges
    ensures { result ≡ kind_ranges code }
{
    match code {
        0 => KIND_RANGES[0],
        1 => KIND_RANGES[1],
        _ => KIND_RANGES[2],
    }
}

// The range of a field.
pub fn range_of(field: Field) -> Span
    ensures { result ≡ span_of (field_range field) }
{
    FIELD_RANGES[field as usize]
}

impl Ranges {
    // The range of q, where a step has the levels up to top: 0 alone for a node without a latency.
    pub fn clock_to_q(self, latency: u32, top: u32) -> Span
        ensures { result ≡ span_of (clock_meant top self.clock latency) }
    {
        if latency == 0 {
            Span { low: 0, high: 0 }
        } else {
            self.clock.up_to(top)
        }
    }
}

impl Span {
    // The values that are also at most `most`.
    pub fn up_to(self, most: u32) -> Span
        ensures { (result.low ≡ self.low) × (result.high ≡ min most self.high) }
    {
        Span {
            low: self.low,
            high: self.high.min(most),
        }
    }

    // The values that are also at least `least`.
    pub fn at_least(self, least: u32) -> Span
        ensures { (result.low ≡ max least self.low) × (result.high ≡ self.high) }
    {
        Span {
            low: self.low.max(least),
            high: self.high,
        }
    }
}
