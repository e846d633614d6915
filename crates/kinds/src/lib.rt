// The three kinds of step, on lent words. Inner functions: their callers show what they require.
#![tactic(auto)]

ghost use Rattle.std.specs.Prelude.{◌≡◌, ◌||◌, leb, ◌+◌, ◌*◌, ◌≤◌, ◌<◌, length};
ghost use Rattle.rules.specs.Store.{meant};
ghost use Rattle.rules.specs.Step.{is_marked};
ghost use Rattle.layout.specs.Forms.{pair_form, read_many};
ghost use Rattle.kinds.specs.Shape.{Ready, Landed, Aside, Swapped};

use numbers::Lengths;

// The kinds, in the order in which they are tried.
#[derive(Clone, Copy)]
pub enum Kind {
    Lands,
    SetsAside,
    Moves,
}

// What a step was, and the lengths that it leaves.
#[derive(Clone, Copy)]
pub struct Turn {
    pub kind: Kind,
    pub lengths: Lengths,
}

// The front entry, by its three words. Its side stays a word and is no `Table`: `set_aside` promises what it leaves for every side word.
#[derive(Clone, Copy)]
pub struct Front {
    pub key: u32,
    pub value: u32,
    pub side: u32,
}

// Kind 1: the cell takes the front entry, which is dropped, and the detector is emptied.
pub fn land(
    i: usize,
    front: Front,
    lengths: Lengths,
    t: &mut [u32],
    queue: &mut [u32],
    detector: &mut [u32],
) -> Turn
    requires some_wait { 0 < lengths.queue }
    requires ready { Ready lengths.queue lengths.detector queue.old detector.old }
    requires i_in_bounds { 2 * i + 1 < length t.old }
    ensures { Landed i front.key front.value lengths.queue t.old queue.old detector.old t.new queue.new detector.new result }
{
    words::put(t, 2 * i, [front.key, front.value]);
    words::close_gap(queue, 0, 3, 3 * (lengths.queue as usize));
    words::clear(detector, 0, 2 * (lengths.detector as usize));
    Turn {
        kind: Kind::Lands,
        lengths: Lengths {
            queue: lengths.queue - 1,
            detector: 0,
        },
    }
}

// Kind 2: the front entry goes to the back, and the detector is emptied.
pub fn set_aside(front: Front, lengths: Lengths, queue: &mut [u32], detector: &mut [u32]) -> Turn
    requires some_wait { 0 < lengths.queue }
    requires ready { Ready lengths.queue lengths.detector queue.old detector.old }
    ensures { Aside front.key front.value front.side lengths.queue queue.old detector.old queue.new detector.new result }
{
    let end = 3 * (lengths.queue as usize);
    words::close_gap(queue, 0, 3, end);
    words::put(queue, end - 3, [front.key, front.value, front.side]);
    words::clear(detector, 0, 2 * (lengths.detector as usize));
    Turn {
        kind: Kind::SetsAside,
        lengths: Lengths {
            queue: lengths.queue,
            detector: 0,
        },
    }
}

// Kind 3: the pair is marked, the cell takes the front entry, and what it held is the front entry for the other table.
pub fn swap(
    i: usize,
    front: Front,
    lengths: Lengths,
    t: &mut [u32],
    queue: &mut [u32],
    detector: &mut [u32],
) -> Turn
    requires side_bound { front.side ≤ 1 }
    requires some_wait { 0 < lengths.queue }
    requires detector_in_bounds { 2 * lengths.detector + 1 < length detector.old }
    requires ready { Ready lengths.queue lengths.detector queue.old detector.old }
    requires i_in_bounds { 2 * i + 1 < length t.old }
    ensures { Swapped i front.key front.value front.side lengths.queue lengths.detector t.old queue.old detector.old t.new queue.new detector.new result }
{
    let k = t[2 * i];
    let u = t[2 * i + 1];
    words::put(t, 2 * i, [front.key, front.value]);
    words::put(queue, 0, [k, u, 1 - front.side]);
    words::put(
        detector,
        2 * (lengths.detector as usize),
        [front.key, front.side],
    );
    Turn {
        kind: Kind::Moves,
        lengths: Lengths {
            queue: lengths.queue,
            detector: lengths.detector + 1,
        },
    }
}

// Whether the front entry is to be set aside: its pair is marked, or the detector is full. Its side is a word and no `Table`: every word means one.
pub fn must_stop(ws: &[u32], n: usize, room: usize, y: u32, side: u32) -> bool
    requires { 2 * n ≤ length ws.now }
    ensures { result ≡ (is_marked y (meant side) (read_many pair_form n ws.now) || leb room n) }
{
    layout::is_marked(ws, n, y, side) || (room <= n)
}
