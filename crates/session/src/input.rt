// The input, through a window.

ghost use Rattle.std.specs.Prelude.{◌≡◌, ◌≤◌, ◌↔◌, length, take, IsTrue, IfOk};
ghost use Rattle.records.specs.Record.{read_at};
ghost use Rattle.records.specs.Told.{told};

use records::Reading;
use std::io;
use std::io::Read;

// Fills the room as far as the input goes, and answers how many bytes came. A loop over reads, since a reader may give less than there is room for,
// `read_exact` does not say how much came before the input's end, and `read_to_end` wants a heap.
fn fill<R: Read>(input: &mut R, room: &mut [u8]) -> io::Result<usize>
    ensures within { IfOk result (λ n. n ≤ length room.old) }
{
    let mut end = 0;
    while end < room.len() {
        let n = input.read(&mut room[end..])?;
        if n == 0 {
            break;
        }
        end += n;
    }
    Ok(end)
}

// A part of the input: of its first `have` bytes those before `at` are done, and `passed` bytes of the input came before them. The length stands beside the
// buffer since memory is fixed, with no heap, and an `ArrayVec` lends a reader no room to fill.
#[derive(Drop)]
pub(crate) struct Window {
    bytes: [u8; 64],
    have: usize,
    at: usize,
    passed: u64,
    ghost inside: { (at ≤ have) × (have ≤ 64) },
}

impl Window {
    // The first part of the input.
    pub(crate) fn opens<R: Read>(input: &mut R) -> io::Result<Window> {
        let mut window = Window {
            bytes: [0; 64],
            have: 0,
            at: 0,
            passed: 0,
        };
        window.refills(input)?;
        Ok(window)
    }

    // Reads at the place reached. A record that can be read is done then.
    pub(crate) fn takes(&mut self) -> Reading
        ensures { told result ≡ read_at (take self.old.have self.old.bytes) self.old.at }
    {
        let reading = records::read(&self.bytes[..self.have], self.at);
        if let Reading::Good(_, next) = reading {
            self.at = next;
        }
        reading
    }

    // Nothing of it is done.
    pub(crate) fn is_fresh(&self) -> bool
        ensures { IsTrue result ↔ (self.now.at ≡ 0) }
    {
        self.at == 0
    }

    // A place of it in the whole input.
    pub(crate) fn place_in_input(&self, place: usize) -> u64 {
        self.passed.wrapping_add(place as u64)
    }

    // What is not done moves to the front, and the input fills the room behind it.
    pub(crate) fn refills<R: Read>(&mut self, input: &mut R) -> io::Result<()> {
        self.bytes.copy_within(self.at..self.have, 0);
        self.passed = self.passed.wrapping_add(self.at as u64);
        self.have -= self.at;
        self.at = 0;
        self.have += fill(input, &mut self.bytes[self.have..])?;
        Ok(())
    }
}
