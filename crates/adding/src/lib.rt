// Define, the record and the lengths being accepted. Inner functions: their callers show what they require, in one clause with a name; a type that says it
// would have to hold the record beside the buffers.
#![tactic(auto)]

ghost use Rattle.std.specs.Prelude.{◌≡◌, ◌<◌};
ghost use Rattle.rules.specs.Run.{run};
ghost use Rattle.rules.specs.Calls.{joined, define};
ghost use Rattle.layout.specs.Memory.{words, SameBuffers};
ghost use Rattle.finding.specs.Inner.{numbers_of, store_of, outcome, leaves, FitIn, told_by};
ghost use Rattle.settling.specs.Ran.{ran_outcome};

use finding::Done;
use layout::Buffers;
use numbers::{Lengths, Setup, Table};
use refusals::Refusal;

// The places past the lengths are cleared, the entry (x, v, 0) joins the back of the queue, which has room, then steps run until L are done or the queue is
// empty.
fn join(mut setup: Setup, x: u32, v: u32, m: &mut Buffers) -> Done
    requires queue_len_bound { setup.rooms.lengths.queue < setup.rooms.queue_room }
    requires fit_in { FitIn setup (words m.old) }
    ensures outcome { let old = words m.old in outcome (words m.new) (told_by setup.rooms (Ok result))
        ≡ ran_outcome setup.rooms (run (numbers_of setup) setup.rooms.step_limit (joined x v (store_of setup old))) }
    ensures same { SameBuffers m.old m.new }
{
    layout::tidy(setup.rooms.lengths, m.queue, m.detector);
    words::put(m.queue, 3 * (setup.rooms.lengths.queue as usize), [x, v, 0]);
    setup.rooms.lengths.queue += 1;
    settling::run_out(setup, setup.rooms.step_limit, m)
}

// As `join`; if nothing waits and the key's home in table 0 is free, that cell takes it at once, which is its one step.
fn seat(setup: Setup, x: u32, v: u32, m: &mut Buffers) -> Done
    requires queue_len_bound { setup.rooms.lengths.queue < setup.rooms.queue_room }
    requires fit_in { FitIn setup (words m.old) }
    ensures outcome { let old = words m.old in outcome (words m.new) (told_by setup.rooms (Ok result))
        ≡ ran_outcome setup.rooms (run (numbers_of setup) setup.rooms.step_limit (joined x v (store_of setup old))) }
    ensures same { SameBuffers m.old m.new }
{
    let i = setup.functions.home_in(Table::Zero, x) as usize;
    if (setup.rooms.lengths.queue == 0) & (m.t0[2 * i] == 0) {
        let lengths = Lengths {
            queue: 0,
            detector: 0,
        };
        words::put(m.t0, 2 * i, [x, v]);
        layout::tidy(lengths, m.queue, m.detector);
        return Done::of(lengths, 0, 1, 0);
    }
    join(setup, x, v, m)
}

// Define: the entry (x, v, 0) joins the queue, then steps run, unless find would find the key or the queue is full.
pub fn define(setup: Setup, x: u32, v: u32, m: &mut Buffers) -> Result<Done, Refusal>
    requires { FitIn setup (words m.old) }
    ensures outcome { let old = words m.old in
        outcome (words m.new) (told_by setup.rooms result) ≡ leaves setup.rooms old (define (numbers_of setup) x v (store_of setup old)) }
    ensures same { SameBuffers m.old m.new }
{
    if !numbers::is_key(x) {
        return Err(Refusal::NotAKey);
    }
    let seen = finding::search_in(setup, x, m);
    if let Some(held) = seen.value {
        return Err(Refusal::AlreadyDefined(held));
    }
    if setup.rooms.queue_room <= setup.rooms.lengths.queue {
        return Err(Refusal::QueueFull);
    }
    Ok(seat(setup, x, v, m))
}
