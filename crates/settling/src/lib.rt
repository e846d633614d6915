// Runs of steps from accepted lengths, and settle. Inner functions: their callers show what they require, in one clause with a name; a type that says it
// would have to hold the record beside the buffers.
#![tactic(auto)]

ghost use Rattle.std.specs.Prelude.{◌≡◌, ◌≤◌};
ghost use Rattle.rules.specs.Run.{run};
ghost use Rattle.rules.specs.Calls.{settle};
ghost use Rattle.layout.specs.Memory.{words, SameBuffers};
ghost use Rattle.kinds.specs.Shape.{Ready};
ghost use Rattle.finding.specs.Inner.{numbers_of, store_of, outcome, leaves, FitIn, told_by};
ghost use Rattle.settling.specs.Ran.{ran_outcome};

use finding::Done;
use layout::Buffers;
use numbers::Setup;
use refusals::Refusal;

// Steps until the budget is spent or nothing waits. In line, as what it calls: else the buffers' struct is written to memory before the first test of a call.
#[inline(always)]
pub fn run_out(setup: Setup, budget: u32, m: &mut Buffers) -> Done
    requires budget_bound { budget ≤ 64 }
    requires fit_in { FitIn setup (words m.old) }
    requires ready { Ready setup.rooms.lengths.queue setup.rooms.lengths.detector m.old.queue.now m.old.detector.now }
    ensures outcome { outcome (words m.new) (told_by setup.rooms (Ok result))
        ≡ ran_outcome setup.rooms (run (numbers_of setup) budget (store_of setup (words m.old))) }
    ensures same { SameBuffers m.old m.new }
{
    let c = setup.rooms;
    let ended = steps::run_steps(setup.functions, c.detector_room, budget, c.lengths, m);
    Done::of(ended.lengths, 0, ended.steps, ended.moves)
}

// Settle n: steps run until n are done or the queue is empty.
pub fn settle(setup: Setup, n: u32, m: &mut Buffers) -> Result<Done, Refusal>
    requires { FitIn setup (words m.old) }
    ensures outcome { let old = words m.old in
        outcome (words m.new) (told_by setup.rooms result) ≡ leaves setup.rooms old (settle (numbers_of setup) n (store_of setup old)) }
    ensures same { SameBuffers m.old m.new }
{
    let c = setup.rooms;
    if c.step_limit < n {
        return Err(Refusal::AboveStepLimit);
    }
    layout::tidy(c.lengths, m.queue, m.detector);
    if c.lengths.queue == 0 {
        return Ok(Done::at_rest(c.lengths, 0));
    }
    Ok(run_out(setup, n, m))
}
