// What a call hands over: numbers as bytes, and the bytes into the caller's buffer where it has room.
#![tactic(auto)]

ghost use Rattle.std.specs.Prelude.{◌≡◌, ◌++◌, ◌+◌, ◌^◌, ◌<◌, ◌≤◌, length, take};
ghost use Rattle.maps.specs.Number.{encoded, bytes_for, values};
ghost use Rattle.maps.specs.Outcome.{within};
ghost use Rattle.out_bytes.specs.Put.{Put};
ghost use Rattle.out_bytes.specs.Outcome.{Answered, number_answered, place_answered};

use types::Refusal;

// Writes x, seven bits in each byte and the low group first; the position after it. No number has more than three bytes.
pub fn put(bytes: &mut [u8], mut at: usize, x: u32) -> usize
    requires { (x < values) × (at + bytes_for x ≤ length bytes.old) }
    ensures { Put (bytes_for x) bytes.old bytes.new at result (encoded x) }
{
    let mut rest = x;
    for _ in 0..2u32 {
        if rest < 128 {
            bytes[at] = rest as u8;
            return at + 1;
        }
        bytes[at] = (128 + rest % 128) as u8;
        at += 1;
        rest /= 128;
    }
    bytes[at] = rest as u8;
    at + 1
}

// Hands over the first n bytes where the buffer has room: their count, or the refusal.
pub fn hand_over(bytes: &[u8], buffer: &mut [u8], n: usize) -> Result<usize, Refusal>
    requires { n ≤ length bytes.now }
    ensures { Answered (within (length buffer.old) (take n bytes.now)) (number_answered result) (place_answered result) buffer.old buffer.new }
{
    if buffer.len() < n {
        return Err(Refusal::Room(n));
    }
    buffer[..n].copy_from_slice(&bytes[..n]);
    Ok(n)
}

// What is written so far: the first `len` of the bytes.
#[derive(Clone, Copy)]
pub struct Output<const N: usize> {
    pub bytes: [u8; N],
    pub len: usize,
}

impl<const N: usize> Output<N> {
    // Nothing is written yet.
    pub fn new() -> Self
        ensures { (length result.bytes ≡ N) × (result.len ≡ 0) }
    {
        Output {
            bytes: [0; N],
            len: 0,
        }
    }

    // Writes x.
    pub fn put(&mut self, x: u32)
        requires { (x < values) × (self.old.len + bytes_for x ≤ length self.old.bytes) }
        ensures put { Put (bytes_for x) self.old.bytes self.new.bytes self.old.len self.new.len (encoded x) }
        ensures len_fits { self.new.len < 2 ^ 64 }
    {
        self.len = put(&mut self.bytes, self.len, x);
    }

    // Hands over what is written where the buffer has room: its length, or the refusal.
    pub fn hand_over(&self, buffer: &mut [u8]) -> Result<usize, Refusal>
        requires { self.now.len ≤ length self.now.bytes }
        ensures { Answered (within (length buffer.old) (take self.now.len self.now.bytes)) (number_answered result) (place_answered result) buffer.old buffer.new }
    {
        hand_over(&self.bytes, buffer, self.len)
    }
}

// Number and place, for C.
#[repr(C)]
#[derive(Clone, Copy)]
pub struct Answer {
    pub number: u64,
    pub place: u64,
}

// The number and place of what a call comes to: the length of what was written, or the refusal.
impl From<Result<usize, Refusal>> for Answer {
    ghost from_gives = { λ outcome answer. (answer.number ≡ number_answered outcome) × (answer.place ≡ place_answered outcome) };

    fn from(outcome: Result<usize, Refusal>) -> Answer {
        match outcome {
            Ok(n) => Answer {
                number: 0,
                place: n as u64,
            },
            Err(why) => Answer {
                number: why.number() as u64,
                place: why.place() as u64,
            },
        }
    }
}
