// One step and runs of steps, on lent words. Inner functions: their callers show what they require. What they ask of the buffers are clauses with a name
// (`TablesReady`, `Ready`), and no types: a type that says it would have to hold the record beside the buffers, and so to be made and taken apart at every
// step.
#![tactic(auto)]

ghost use Rattle.std.specs.Prelude.{◌≡◌, List, ◌*◌, ◌≤◌, ◌<◌, length, get_or, drop};
ghost use Rattle.numbers.specs.Tables.{side_of};
ghost use Rattle.rules.specs.Store.{Cell, Numbers};
ghost use Rattle.rules.specs.Step.{step_at, step};
ghost use Rattle.rules.specs.Run.{as_move, run};
ghost use Rattle.layout.specs.Memory.{words, SameBuffers, rules_table, entries_in, store_held};
ghost use Rattle.kinds.specs.Shape.{Ready, entry, kind_number};
ghost use Rattle.steps.specs.Shape.{After, TablesReady, StepsWith, Follows, Runs, tables_with};

use kinds::{Front, Kind, Turn};
use layout::Buffers;
use numbers::{Functions, Lengths, Table};

// The lengths that a run leaves, and its counts.
#[derive(Clone, Copy)]
pub struct Ended {
    pub lengths: Lengths,
    pub steps: u32,
    pub moves: u32,
}

// One step in the table that the front entry means, at cell i of r.
#[inline(always)]
fn step_in(
    r: u32,
    room: u32,
    i: usize,
    table: Table,
    lengths: Lengths,
    t: &mut [u32],
    queue: &mut [u32],
    detector: &mut [u32],
) -> Turn
    requires some_wait { 0 < lengths.queue }
    requires t_len { (length t.old ≡ 2 * r) × (i < r) × (length detector.old ≡ 2 * room) }
    requires ready { Ready lengths.queue lengths.detector queue.old detector.old }
    ensures { let front = entry (get_or queue.old 0 0) (get_or queue.old 1 0) (side_of table) in let rest = drop 1 (entries_in lengths.queue queue.old) in (o : List Cell) → After r (step_at room (rules_table table) i front rest (tables_with r lengths.queue lengths.detector (rules_table table) o t.old queue.old detector.old)) (rules_table table) o (length queue.old) (length detector.old) t.new queue.new detector.new result }
{
    let front = Front {
        key: queue[0],
        value: queue[1],
        side: u32::from(table),
    };
    if t[2 * i] == 0 {
        return kinds::land(i, front, lengths, t, queue, detector);
    }
    if kinds::must_stop(
        detector,
        lengths.detector as usize,
        room as usize,
        front.key,
        front.side,
    ) {
        return kinds::set_aside(front, lengths, queue, detector);
    }
    kinds::swap(i, front, lengths, t, queue, detector)
}

// One step; some entry waits.
#[inline(always)]
fn one_step(f: Functions, room: u32, lengths: Lengths, m: &mut Buffers) -> Turn
    requires some_wait { 0 < lengths.queue }
    requires tables_ready { TablesReady f.r m.old.t0.now m.old.t1.now }
    requires detector_len { length m.old.detector.now ≡ 2 * room }
    requires ready { Ready lengths.queue lengths.detector m.old.queue.now m.old.detector.now }
    ensures words { (n : Numbers) → StepsWith n f room → Follows f.r (length m.old.queue.now) (length m.old.detector.now) (step n (store_held f.r lengths (words m.old))) m.new.t0.now m.new.t1.now m.new.queue.now m.new.detector.now result }
    ensures same { SameBuffers m.old m.new }
{
    let key = m.queue[0];
    let side = m.queue[2];
    let table = Table::from(side);
    let i = f.home_in(table, key) as usize;
    match table {
        Table::Zero => step_in(f.r, room, i, table, lengths, m.t0, m.queue, m.detector),
        Table::One => step_in(f.r, room, i, table, lengths, m.t1, m.queue, m.detector),
    }
}

// 1 for a move, and 0 for any other step.
fn move_of(kind: Kind) -> u32
    ensures value { result ≡ as_move (kind_number kind) }
    ensures upper_bound { result ≤ 1 }
{
    match kind {
        Kind::Moves => 1,
        _ => 0,
    }
}

// Steps until the budget is spent or nothing waits.
#[inline(always)]
pub fn run_steps(
    f: Functions,
    room: u32,
    budget: u32,
    mut lengths: Lengths,
    m: &mut Buffers,
) -> Ended
    requires budget_bound { budget ≤ 64 }
    requires tables_ready { TablesReady f.r m.old.t0.now m.old.t1.now }
    requires detector_len { length m.old.detector.now ≡ 2 * room }
    requires ready { Ready lengths.queue lengths.detector m.old.queue.now m.old.detector.now }
    ensures words { (n : Numbers) → StepsWith n f room → Runs f.r (length m.old.queue.now) (length m.old.detector.now) (run n budget (store_held f.r lengths (words m.old))) m.new.t0.now m.new.t1.now m.new.queue.now m.new.detector.now result }
    ensures same { SameBuffers m.old m.new }
{
    let mut moves: u32 = 0;
    for steps in 0..budget {
        if lengths.queue == 0 {
            return Ended {
                lengths,
                steps,
                moves,
            };
        }
        let turn = one_step(f, room, lengths, m);
        lengths = turn.lengths;
        moves += move_of(turn.kind);
    }
    Ended {
        lengths,
        steps: budget,
        moves,
    }
}
