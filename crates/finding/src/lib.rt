// Where a key lies, and what find answers. Inner functions: their callers show what they require. The queue's bounds stand in each clause: a struct of the
// queue and its count would say them too, and ask them again where a public function makes it.
#![tactic(auto)]

ghost use Rattle.std.specs.Prelude.{◌≡◌, ℕ, ◌*◌, ◌≤◌, List, length};
ghost use Rattle.rules.specs.Calls.{find};
ghost use Rattle.layout.specs.Memory.{lent, words};
ghost use Rattle.steps.specs.Shape.{TablesReady};
ghost use Rattle.finding.specs.Inner.{numbers_of, store_of, tells, told_of, told_by, answered, is_neither, Sees, SeesInQueue};

use layout::Buffers;
use numbers::{Lengths, Rooms, Setup, Table};
use refusals::Refusal;

// What an accepted call gives back: the lengths, the detector's in the upper half, and the fields of its answer. The record goes on to the next call, which
// reads both lengths at once: two halves, written one after the other, would hold it up. (With a struct of two, settle with nothing waiting takes 1.20 of
// the limit's time, and with one word 1.08; the bar is 1.15.)
#[derive(Clone, Copy)]
pub struct Done {
    pub lengths: u64,
    pub value: u32,
    pub steps: u32,
    pub moves: u32,
}

// Where a key lies: a cell of table 0 or 1, a queue place counted from the front, or nowhere. (The project's page of rules asks for an enum of these four.)
#[derive(Clone, Copy)]
pub enum Place {
    Table0(usize),
    Table1(usize),
    Waiting(usize),
    Nowhere,
}

// What a search saw: the place, and the value there.
#[derive(Clone, Copy)]
pub struct Seen {
    pub place: Place,
    pub value: Option<u32>,
}

impl Done {
    // All that a call gives back.
    pub fn of(lengths: Lengths, value: u32, steps: u32, moves: u32) -> Done
        ensures { told_of result ≡ tells lengths.queue lengths.detector 0 value steps moves }
    {
        Done {
            lengths: (lengths.queue as u64) + (lengths.detector as u64) * 4294967296,
            value,
            steps,
            moves,
        }
    }

    // Accepted without steps.
    pub fn at_rest(lengths: Lengths, value: u32) -> Done
        ensures { told_of result ≡ tells lengths.queue lengths.detector 0 value 0 0 }
    {
        Done::of(lengths, value, 0, 0)
    }
}

// Where key x, which is in no cell, lies: the queue from the front.
fn search_queue(c: Rooms, x: u32, queue: &[u32]) -> Seen
    requires { (3 * c.lengths.queue ≤ length queue.now) × (length queue.now ≤ 192) }
    ensures { SeesInQueue c x queue.now result }
{
    match layout::place_of(queue, c.lengths.queue as usize, x) {
        Some(k) => Seen {
            place: Place::Waiting(k),
            value: Some(queue[3 * k + 1]),
        },
        None => Seen {
            place: Place::Nowhere,
            value: None,
        },
    }
}

// Whether neither key is x. One test, of a product: two comparisons are two guesses where the keys are random (find then took 1.36 to 1.39 of the limit's
// time).
fn neither(key0: u32, key1: u32, x: u32) -> bool
    ensures { result ≡ is_neither key0 key1 x }
{
    let off0 = key0.wrapping_sub(x) as u64;
    let off1 = key1.wrapping_sub(x) as u64;
    off0 * off1 != 0
}

// Where key x lies: home in table 0, home in table 1, then the queue from the front. Both cells are read before any is compared, so that the value too is
// picked and not guessed. The three shared slices stand singly: find, whose slices are shared, has no `Buffers` to hand on.
pub fn search(setup: Setup, x: u32, t0: &[u32], t1: &[u32], queue: &[u32]) -> Seen
    requires tables_ready { TablesReady setup.functions.r t0.now t1.now }
    requires queue_len_in_bounds { (3 * setup.rooms.lengths.queue ≤ length queue.now) × (length queue.now ≤ 192) }
    ensures { (d : List ℕ) → Sees setup x (lent t0.now t1.now queue.now d) result }
{
    let i = setup.functions.home_in(Table::Zero, x) as usize;
    let j = setup.functions.home_in(Table::One, x) as usize;
    let key0 = t0[2 * i];
    let value0 = t0[2 * i + 1];
    let key1 = t1[2 * j];
    let value1 = t1[2 * j + 1];
    if neither(key0, key1, x) {
        return search_queue(setup.rooms, x, queue);
    }
    if key0 == x {
        Seen {
            place: Place::Table0(i),
            value: Some(value0),
        }
    } else {
        Seen {
            place: Place::Table1(j),
            value: Some(value1),
        }
    }
}

// The same in lent buffers.
pub fn search_in(setup: Setup, x: u32, m: &Buffers) -> Seen
    requires tables_ready { TablesReady setup.functions.r m.now.t0.now m.now.t1.now }
    requires queue_len_in_bounds { (3 * setup.rooms.lengths.queue ≤ length m.now.queue.now) × (length m.now.queue.now ≤ 192) }
    ensures { Sees setup x (words m.now) result }
{
    search(setup, x, &*m.t0, &*m.t1, &*m.queue)
}

// Find: the value that the search saw.
pub fn find(setup: Setup, x: u32, t0: &[u32], t1: &[u32], queue: &[u32]) -> Result<Done, Refusal>
    requires tables_ready { TablesReady setup.functions.r t0.now t1.now }
    requires queue_len_in_bounds { (3 * setup.rooms.lengths.queue ≤ length queue.now) × (length queue.now ≤ 192) }
    ensures { (d : List ℕ) → told_by setup.rooms result
        ≡ answered setup.rooms (find (numbers_of setup) x (store_of setup (lent t0.now t1.now queue.now d))).answer }
{
    if !numbers::is_key(x) {
        return Err(Refusal::NotAKey);
    }
    match search(setup, x, t0, t1, queue).value {
        Some(value) => Ok(Done::at_rest(setup.rooms.lengths, value)),
        None => Err(Refusal::NotFound),
    }
}
