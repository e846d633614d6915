// The test of a whole store, in time linear in its tables. An inner function: its callers show what it requires.
#![tactic(auto)]

ghost use Rattle.std.specs.Prelude.{◌≡◌, ◌*◌, ◌≤◌, length};
ghost use Rattle.rules.specs.Store.{Numbers};
ghost use Rattle.layout.specs.Memory.{homes_of};
ghost use Rattle.steps.specs.Shape.{TablesReady};
ghost use Rattle.checks.specs.Sound.{is_sound_in};

use numbers::{Functions, Lengths, Table};

// Whether the words hold a store with sound contents, and zeros past the lengths.
pub fn is_sound(
    f: Functions,
    lengths: Lengths,
    t0: &[u32],
    t1: &[u32],
    queue: &[u32],
    detector: &[u32],
) -> bool
    requires tables_ready { TablesReady f.r t0.now t1.now }
    requires lengths_in_bounds { let q = length queue.now in let d = length detector.now in (3 * lengths.queue ≤ q) × (q ≤ 192) × (2 * lengths.detector ≤ d) × (d ≤ 256) }
    ensures { (n : Numbers) → n.home ≡ homes_of f → result ≡ is_sound_in n f.r lengths.queue lengths.detector t0.now t1.now queue.now detector.now }
{
    let waiting = lengths.queue as usize;
    let marked = lengths.detector as usize;
    cells::cells_ok(f, Table::Zero, t0, t1)
        && cells::cells_ok(f, Table::One, t1, t0)
        && entries::queue_ok(f, waiting, t0, t1, queue)
        && entries::marks_ok(marked, detector)
        && entries::all_zero(queue, 3 * waiting)
        && entries::all_zero(detector, 2 * marked)
}
