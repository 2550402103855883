// The line that is being read, in bounded memory.
ghost use Rattle.std.specs.Prelude.{◌≡◌, ℕ, List, [], length, ◌==◌};
ghost use Rattle.script.specs.Gathering.{gathered, kept, pushed};

use arrayvec::ArrayVec;

// One byte more than a line of a script may have.
const ROOM: usize = 81;

// The first bytes of the line so far; those of a line above 80 bytes fill the room.
#[derive(Drop)]
pub struct Gather {
    bytes: ArrayVec<u8, ROOM>,
}

impl Gather {
    pub fn new() -> Gather
        ensures { gathered result ≡ [] }
    {
        Gather {
            bytes: ArrayVec::new(),
        }
    }

    // Takes one more byte, and says whether it ends the line.
    pub fn push(&mut self, byte: u8) -> bool
        ensures ended { result ≡ (byte == 10) }
        ensures line { gathered self.new ≡ kept (pushed (gathered self.old) byte) }
        ensures since { (whole : List ℕ) → gathered self.old ≡ kept whole → gathered self.new ≡ kept (pushed whole byte) }
    {
        let ended = byte == b'\n';
        let full = self.bytes.is_full();
        if !ended && !full {
            self.bytes.push(byte);
        }
        ended
    }

    pub fn line(&self) -> &[u8]
        ensures { result.now ≡ gathered self.now }
    {
        self.bytes.as_slice()
    }

    pub fn is_empty(&self) -> bool
        ensures { result ≡ (length (gathered self.now) == 0) }
    {
        self.bytes.is_empty()
    }

    pub fn clear(&mut self)
        ensures { gathered self.new ≡ [] }
    {
        self.bytes.clear();
    }
}
