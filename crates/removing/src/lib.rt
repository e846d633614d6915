// Remove, the record and the lengths being accepted. Inner functions: their callers show what they require, in one clause with a name; a type that says it
// would have to hold the record beside the buffers.
#![tactic(auto)]

ghost use Rattle.std.specs.Prelude.{◌≡◌, ◌+◌, ◌*◌, ◌<◌, length};
ghost use Rattle.rules.specs.Calls.{remove};
ghost use Rattle.layout.specs.Memory.{words, SameBuffers};
ghost use Rattle.finding.specs.Inner.{numbers_of, store_of, outcome, leaves, RoomsFit, FitIn, told_by};
ghost use Rattle.removing.specs.Gone.{CellGone, EntryGone};

use finding::{Done, Place};
use layout::Buffers;
use numbers::{Lengths, Rooms, Setup};
use refusals::Refusal;

// A cell becomes 0, 0; its value is answered.
fn remove_cell(c: Rooms, i: usize, t: &mut [u32], queue: &mut [u32], detector: &mut [u32]) -> Done
    requires i_in_bounds { 2 * i + 1 < length t.old }
    requires rooms_fit { RoomsFit c (length queue.old) (length detector.old) }
    ensures { CellGone c i t.old queue.old detector.old t.new queue.new detector.new (told_by c (Ok result)) }
{
    let old = t[2 * i + 1];
    words::put(t, 2 * i, [0, 0]);
    layout::tidy(c.lengths, queue, detector);
    Done::at_rest(c.lengths, old)
}

// A queue entry goes, and those behind it move up one; its value is answered.
fn remove_waiting(c: Rooms, j: usize, queue: &mut [u32], detector: &mut [u32]) -> Done
    requires j_bound { j < c.lengths.queue }
    requires rooms_fit { RoomsFit c (length queue.old) (length detector.old) }
    ensures { EntryGone c j queue.old detector.old queue.new detector.new (told_by c (Ok result)) }
{
    let old = queue[3 * j + 1];
    layout::tidy(c.lengths, queue, detector);
    let end = 3 * (c.lengths.queue as usize);
    words::close_gap(queue, 3 * j, 3, end);
    let lengths = Lengths {
        queue: c.lengths.queue - 1,
        detector: c.lengths.detector,
    };
    Done::at_rest(lengths, old)
}

// Remove: the entry at the place where the key lies goes; its value is answered.
pub fn remove(setup: Setup, x: u32, m: &mut Buffers) -> Result<Done, Refusal>
    requires { FitIn setup (words m.old) }
    ensures outcome { let old = words m.old in
        outcome (words m.new) (told_by setup.rooms result) ≡ leaves setup.rooms old (remove (numbers_of setup) x (store_of setup old)) }
    ensures same { SameBuffers m.old m.new }
{
    if !numbers::is_key(x) {
        return Err(Refusal::NotAKey);
    }
    let seen = finding::search_in(setup, x, m);
    match seen.place {
        Place::Table0(i) => Ok(remove_cell(setup.rooms, i, m.t0, m.queue, m.detector)),
        Place::Table1(i) => Ok(remove_cell(setup.rooms, i, m.t1, m.queue, m.detector)),
        Place::Waiting(j) => Ok(remove_waiting(setup.rooms, j, m.queue, m.detector)),
        Place::Nowhere => Err(Refusal::NotFound),
    }
}
