// Change, the record and the lengths being accepted. Inner functions: their callers show what they require, in one clause with a name; a type that says it
// would have to hold the record beside the buffers.
#![tactic(auto)]

ghost use Rattle.std.specs.Prelude.{◌≡◌, List, ℕ, ◌+◌, ◌*◌, ◌≤◌, ◌<◌, length};
ghost use Rattle.rules.specs.Calls.{change};
ghost use Rattle.layout.specs.Memory.{lent};
ghost use Rattle.steps.specs.Shape.{TablesReady};
ghost use Rattle.finding.specs.Inner.{numbers_of, store_of, outcome, told_by};
ghost use Rattle.changing.specs.Change.{changing, Exchanged};

use finding::{Done, Place};
use numbers::{Rooms, Setup};
use refusals::Refusal;

// Another value in entry i of width w; the old one is answered.
fn exchange(c: Rooms, w: usize, i: usize, v: u32, ws: &mut [u32]) -> Done
    requires { (w * i + 1 < length ws.old) × (length ws.old ≤ 65536) }
    ensures { Exchanged c w i v ws.old ws.new (told_by c (Ok result)) }
{
    let at = w * i + 1;
    let old = ws[at];
    ws[at] = v;
    Done::at_rest(c.lengths, old)
}

// Change: the value at the place where the key lies is replaced; the old one is answered. The three slices stand singly: no word of the detector counts, so no
// caller has to lend it.
pub fn change(
    setup: Setup,
    x: u32,
    v: u32,
    t0: &mut [u32],
    t1: &mut [u32],
    queue: &mut [u32],
) -> Result<Done, Refusal>
    requires tables_ready { TablesReady setup.functions.r t0.old t1.old }
    requires queue_len_in_bounds { (3 * setup.rooms.lengths.queue ≤ length queue.old) × (length queue.old ≤ 192) }
    ensures { (d : List ℕ) → let old = lent t0.old t1.old queue.old d in
        outcome (lent t0.new t1.new queue.new d) (told_by setup.rooms result)
        ≡ changing setup x v old (change (numbers_of setup) x v (store_of setup old)).answer }
{
    if !numbers::is_key(x) {
        return Err(Refusal::NotAKey);
    }
    let seen = finding::search(setup, x, t0, t1, queue);
    match seen.place {
        Place::Table0(i) => Ok(exchange(setup.rooms, 2, i, v, t0)),
        Place::Table1(i) => Ok(exchange(setup.rooms, 2, i, v, t1)),
        Place::Waiting(j) => Ok(exchange(setup.rooms, 3, j, v, queue)),
        Place::Nowhere => Err(Refusal::NotFound),
    }
}
