// The caller's numbers.
ghost use Rattle.std.specs.Prelude.{◌≡◌, ◌≤◌};
ghost use Rattle.maps.specs.Form.{among, passes};
ghost use Rattle.ranges.specs.Ranges.{field_range};
ghost use Rattle.blif.specs.Limits.{delay, callable};
ghost use Rattle.importer.specs.Meant.{caller_meant};

use ranges::{Field, range_of};

// The numbers of a call: K, T, H, and the picoseconds of a table and of a level.
#[derive(Clone, Copy, Debug, PartialEq, Eq)]
pub struct Caller {
    pub leaves: u32,
    pub top: u32,
    pub horizon: u32,
    pub table: u32,
    pub level: u32,
}

// Whether a number is in the range of its field.
pub fn in_range(x: u32, field: Field) -> bool
    ensures { result ≡ passes (among (field_range field)) x }
{
    let span = range_of(field);
    span.low <= x && x <= span.high
}

impl Caller {
    // d: the quotient of a table's and a level's picoseconds, rounded up.
    pub fn delay(self) -> u32
        requires { 1 ≤ self.level }
        ensures { result ≡ delay (caller_meant self) }
    {
        self.table.div_ceil(self.level)
    }

    // Whether the numbers are in range, d among them.
    pub fn is_callable(self) -> bool
        ensures { result ≡ callable (caller_meant self) }
    {
        in_range(self.leaves, Field::Leaves)
            && in_range(self.top, Field::Top)
            && in_range(self.horizon, Field::Horizon)
            && 1 <= self.table
            && 1 <= self.level
            && self.delay() <= self.top
    }
}
