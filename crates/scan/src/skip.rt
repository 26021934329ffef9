// The walk over the text that lines, words and blanks have in common.
ghost use Rattle.std.specs.Prelude.{ℕ, ◌≤◌, ◌≡◌, Bool, drop};
ghost use Rattle.blif.specs.Scan.{from};
ghost use Rattle.scan.specs.Joins.{any_byte};

use crate::stops::joins;

// Where the first byte stands that stops: joins are passed over.
pub fn skip<F: Fn(u8) -> bool>(text: &[u8], start: usize, stops: F) -> usize
    requires { F.IsAlwaysCallable stops }
    ensures stops_at { (stop : ℕ → Bool) → ((b : ℕ) (r : Bool) → F.post stops b r → r ≡ stop b) → drop result text.now ≡ from stop (drop start text.now) }
    ensures goes_on { start ≤ result }
{
    let mut at = start;
    while at < text.len() {
        if joins(text, at) {
            at += 2;
        } else if stops(text[at]) {
            return at;
        } else {
            at += 1;
        }
    }
    at
}

// Where the joins at a position end.
pub fn after_joins(text: &[u8], start: usize) -> usize
    ensures { (drop result text.now ≡ from any_byte (drop start text.now)) × (start ≤ result) }
{
    skip(text, start, |_| true)
}
