// A line of input, in memory that does not grow with it.
ghost use Rattle.std.specs.Prelude.{◌≡◌, ℕ, ◌+◌, ◌<◌, ◌≤◌, List, [], ◌∷◌, ◌++◌, length, take, IfOk, IfSome, MatchOption, ◌==◌, nat_le};
ghost use Rattle.input.specs.Limits.{line_limit};
ghost use Rattle.input.specs.Lines.{Took};

use std::alloc::{AllocError, Global};
use std::marker::Model;

// A line of more bytes is not read.
pub const LINE_LIMIT: usize = 4096;

// The first bytes of a line: as many as may be read, and one more of a line that is too long.
#[derive(Drop)]
pub struct Line {
    bytes: Vec<u8>,
}

impl Model for Line {
    ghost use Rattle.std.specs.Prelude.{ℕ, ◌+◌, ◌≤◌, List, vec_len, vec_capacity};
    ghost use Rattle.input.specs.Limits.{line_limit};

    ghost Value = { List ℕ };

    ghost view = { λ line. line.bytes.items };

    ghost invariant = { λ line. (vec_len line.bytes ≤ line_limit + 1) × (line_limit + 1 ≤ vec_capacity line.bytes) };
}

impl Line {
    // A line that has taken nothing yet.
    pub fn new(heap: Global) -> Result<Line, AllocError>
        ensures { IfOk result (λ line. Took line []) }
    {
        Ok(Line {
            bytes: Vec::with_capacity(heap, LINE_LIMIT + 1)?,
        })
    }

    // One byte more.
    pub fn take(&mut self, byte: u8)
        ensures { (bytes : List ℕ) → Took self.old bytes → Took self.new (bytes ++ byte ∷ []) }
    {
        if self.is_whole() {
            self.bytes.push_reserved(byte);
        }
    }

    // Whether it has taken no byte since it began.
    pub fn is_empty(&self) -> bool
        ensures kept { result ≡ (length self.now == 0) }
        ensures taken { (bytes : List ℕ) → Took self.now bytes → result ≡ (length bytes == 0) }
    {
        self.bytes.is_empty()
    }

    // Whether it has taken no more bytes than may be read, so that it has all of them.
    pub fn is_whole(&self) -> bool
        ensures kept { result ≡ nat_le (length self.now) line_limit }
        ensures taken { (bytes : List ℕ) → Took self.now bytes → result ≡ nat_le (length bytes) line_limit }
    {
        self.bytes.len() <= LINE_LIMIT
    }

    // All bytes it has taken; none of a line that is too long.
    pub fn whole(&self) -> Option<&[u8]>
        ensures value { (bytes : List ℕ) → Took self.now bytes
            → MatchOption result (line_limit < length bytes) (λ kept. kept.now ≡ bytes) }
        ensures bound { IfSome result (λ kept. length kept.now ≤ line_limit) }
    {
        self.is_whole().then_some(self.bytes.as_slice())
    }

    // The first bytes it has taken, up to one more than may be read.
    pub fn kept(&self) -> &[u8]
        ensures { (bytes : List ℕ) → Took self.now bytes → result.now ≡ take (line_limit + 1) bytes }
    {
        self.bytes.as_slice()
    }

    // Begins anew.
    pub fn clear(&mut self)
        ensures { Took self.new [] }
    {
        self.bytes.clear();
    }
}
