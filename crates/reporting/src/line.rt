// The line of an input that has not ended.

ghost use Rattle.std.specs.Prelude.{◌≡◌, [], ◌≤◌, take};
ghost use Rattle.reporting.specs.Held.{held_after};

// Its first bytes: of a line that is too long, one byte too many is enough.
#[derive(Clone, Copy)]
pub struct Line {
    bytes: [u8; 8193],
    held: usize,
    ghost few: { held ≤ 8193 },
}

impl Line {
    pub fn new() -> Line
        ensures { take result.held result.bytes ≡ [] }
    {
        Line {
            bytes: [0; 8193],
            held: 0,
        }
    }

    pub fn push(&mut self, b: u8)
        ensures { take self.new.held self.new.bytes ≡ held_after (take self.old.held self.old.bytes) b }
    {
        if self.held < self.bytes.len() {
            self.bytes[self.held] = b;
            self.held += 1;
        }
    }

    pub fn clear(&mut self)
        ensures { take self.new.held self.new.bytes ≡ [] }
    {
        self.held = 0;
    }

    pub fn as_slice(&self) -> &[u8]
        ensures { result.now ≡ take self.now.held self.now.bytes }
    {
        &self.bytes[..self.held]
    }
}
