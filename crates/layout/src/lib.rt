// Lent buffers, the searches through the words of queue and detector, and what lies past their lengths, cleared. Inner functions: their callers show what they
// require.
#![tactic(auto)]

ghost use Rattle.std.specs.Prelude.{◌≡◌, ◌&&◌, eqb, ◌*◌, ◌≤◌, length};
ghost use Rattle.rules.specs.Step.{is_marked};
ghost use Rattle.rules.specs.Store.{meant, same_table};
ghost use Rattle.words.specs.Words.{cleared};
ghost use Rattle.layout.specs.Forms.{pair_form, entry_form, read_many};
ghost use Rattle.layout.specs.Memory.{SameBuffers, Tidied};
ghost use Rattle.layout.specs.Places.{FirstPlace};

use numbers::{Lengths, Table};

// The four buffers that a caller lends.
#[derive(Drop)]
pub struct Buffers<'a> {
    pub t0: &'a mut [u32],
    pub t1: &'a mut [u32],
    pub queue: &'a mut [u32],
    pub detector: &'a mut [u32],
}

// Whether key k with side word s is the pair of key y and the table that a side word means.
fn is_pair(k: u32, s: u32, y: u32, side: u32) -> bool
    ensures { result ≡ eqb k y && same_table (meant s) (meant side) }
{
    (k == y) && (Table::from(s) == Table::from(side))
}

// Whether the pair of key y and the table that a side word means is among the first n pairs. A word and no `Table`: every word means one.
pub fn is_marked(ws: &[u32], n: usize, y: u32, side: u32) -> bool
    requires { 2 * n ≤ length ws.now }
    ensures { result ≡ is_marked y (meant side) (read_many pair_form n ws.now) }
{
    for i in 0..n {
        if is_pair(ws[2 * i], ws[2 * i + 1], y, side) {
            return true;
        }
    }
    false
}

// The place of the first of n entries with key x.
pub fn place_of(ws: &[u32], n: usize, x: u32) -> Option<usize>
    requires { 3 * n ≤ length ws.now }
    ensures { FirstPlace x (read_many entry_form n ws.now) n result }
{
    for i in 0..n {
        if ws[3 * i] == x {
            return Some(i);
        }
    }
    None
}

// Zeros past the lengths.
pub fn tidy(lengths: Lengths, queue: &mut [u32], detector: &mut [u32])
    requires queue_in_bounds { (3 * lengths.queue ≤ length queue.old) × (length queue.old ≤ 192) }
    requires detector_in_bounds { (2 * lengths.detector ≤ length detector.old) × (length detector.old ≤ 256) }
    ensures { Tidied lengths.queue lengths.detector queue.old detector.old queue.new detector.new }
{
    let nq = queue.len();
    let nd = detector.len();
    words::clear(queue, 3 * (lengths.queue as usize), nq);
    words::clear(detector, 2 * (lengths.detector as usize), nd);
}

// Zero to every word of the four buffers.
pub fn clear_all(m: &mut Buffers)
    ensures t0_after { m.new.t0.now ≡ cleared 0 (length m.old.t0.now) m.old.t0.now }
    ensures t1_after { m.new.t1.now ≡ cleared 0 (length m.old.t1.now) m.old.t1.now }
    ensures queue_after { m.new.queue.now ≡ cleared 0 (length m.old.queue.now) m.old.queue.now }
    ensures detector_after { m.new.detector.now ≡ cleared 0 (length m.old.detector.now) m.old.detector.now }
    ensures same { SameBuffers m.old m.new }
{
    let n0 = m.t0.len();
    let n1 = m.t1.len();
    let nq = m.queue.len();
    let nd = m.detector.len();
    words::clear(m.t0, 0, n0);
    words::clear(m.t1, 0, n1);
    words::clear(m.queue, 0, nq);
    words::clear(m.detector, 0, nd);
}
