// The tests of queue and detector, and of the places past their lengths. Inner functions: their callers show what they require. Queue and count are two
// parameters: in a struct, their bounds would stand in it and again at `queue_ok`, which would make it, and every clause would be longer by its name.
#![tactic(auto)]

ghost use Rattle.std.specs.Prelude.{◌≡◌, ◌&&◌, not, leb, ◌+◌, ◌-◌, ◌*◌, ◌≤◌, ◌<◌, length, get_or, drop};
ghost use Rattle.numbers.specs.Ranges.{good_key};
ghost use Rattle.rules.specs.Store.{meant, Numbers};
ghost use Rattle.rules.specs.Check.{waits_in, entry_ok, queue_ok, marks_ok};
ghost use Rattle.rules.specs.Step.{is_marked};
ghost use Rattle.layout.specs.Memory.{cells_in, entries_in, pairs_in, homes_of};
ghost use Rattle.layout.specs.Forms.{entry_form, pair_form, read_many};
ghost use Rattle.steps.specs.Shape.{TablesReady};
ghost use Rattle.entries.specs.Zeros.{all_zero};

use numbers::{Functions, Table};

// Whether key x waits at a place from `from` on.
fn waits_from(queue: &[u32], from: usize, n: usize, x: u32) -> bool
    requires { (from ≤ n) × (3 * n ≤ length queue.now) × (length queue.now ≤ 192) }
    ensures { result ≡ waits_in x (read_many entry_form (n - from) (drop (3 * from) queue.now)) }
{
    layout::place_of(&queue[3 * from..], n - from, x).is_some()
}

// Whether entry j of n has a good key and side, lies in no cell, and does not wait again behind.
fn entry_ok(f: Functions, j: usize, n: usize, t0: &[u32], t1: &[u32], queue: &[u32]) -> bool
    requires j_lt_n { (j < n) × (3 * n ≤ length queue.now) × (length queue.now ≤ 192) }
    requires tables_ready { TablesReady f.r t0.now t1.now }
    ensures { (m : Numbers) → m.home ≡ homes_of f → result ≡ entry_ok m (record { table0 = cells_in f.r t0.now; table1 = cells_in f.r t1.now }) (record { key = get_or queue.now (3 * j) 0; value = get_or queue.now (3 * j + 1) 0; side = get_or queue.now (3 * j + 2) 0 }) (read_many entry_form (n - (j + 1)) (drop (3 * (j + 1)) queue.now)) }
{
    let x = queue[3 * j];
    let good_side = queue[3 * j + 2] <= 1;
    numbers::is_key(x)
        && good_side
        && !cells::is_held(f, Table::Zero, x, t0)
        && !cells::is_held(f, Table::One, x, t1)
        && !waits_from(queue, j + 1, n, x)
}

// Whether every one of n entries is as it must be.
pub fn queue_ok(f: Functions, n: usize, t0: &[u32], t1: &[u32], queue: &[u32]) -> bool
    requires n_in_bounds { (3 * n ≤ length queue.now) × (length queue.now ≤ 192) }
    requires tables_ready { TablesReady f.r t0.now t1.now }
    ensures { (m : Numbers) → m.home ≡ homes_of f → result ≡ queue_ok m (record { table0 = cells_in f.r t0.now; table1 = cells_in f.r t1.now }) (entries_in n queue.now) }
{
    (0..n).all(|j| entry_ok(f, j, n, t0, t1, queue))
}

// Whether pair j of n has a good key and side, and is not marked again behind.
fn pair_ok(j: usize, n: usize, detector: &[u32]) -> bool
    requires { (j < n) × (2 * n ≤ length detector.now) × (length detector.now ≤ 256) }
    ensures { result ≡ good_key (get_or detector.now (2 * j) 0) && leb (get_or detector.now (2 * j + 1) 0) 1 && not (is_marked (get_or detector.now (2 * j) 0) (meant (get_or detector.now (2 * j + 1) 0)) (read_many pair_form (n - (j + 1)) (drop (2 * (j + 1)) detector.now))) }
{
    let y = detector[2 * j];
    let side = detector[2 * j + 1];
    let behind = &detector[2 * (j + 1)..];
    numbers::is_key(y) && side <= 1 && !layout::is_marked(behind, n - (j + 1), y, side)
}

// Whether every one of n pairs is as it must be.
pub fn marks_ok(n: usize, detector: &[u32]) -> bool
    requires { (2 * n ≤ length detector.now) × (length detector.now ≤ 256) }
    ensures { result ≡ marks_ok (pairs_in n detector.now) }
{
    (0..n).all(|j| pair_ok(j, n, detector))
}

// Whether the words from a place on are zero.
pub fn all_zero(ws: &[u32], from: usize) -> bool
    requires { from ≤ length ws.now }
    ensures { result ≡ all_zero (drop from ws.now) }
{
    ws[from..].iter().all(|w| *w == 0)
}
