// The store's calls for C and Rust: one exported function for each, any record and any lengths. Names, numbers and slices one by one are the C interface
// (`kt.h`).
#![tactic(auto)]

ghost use Rattle.std.specs.Prelude.{◌≡◌};
ghost use Rattle.layout.specs.Memory.{lent};
ghost use Rattle.store.specs.Refusals.{outcome};
ghost use Rattle.store.specs.Calls.{new_record, opened, found, defined, changed, removed, settled, checked};

use store::{Answer, Control};

// Open: the record's eight numbers count, its lengths do not.
#[unsafe(no_mangle)]
pub extern "C" fn kt_open(
    c: Control,
    t0: &mut [u32],
    t1: &mut [u32],
    queue: &mut [u32],
    detector: &mut [u32],
) -> Answer
    ensures { outcome (lent t0.new t1.new queue.new detector.new) result ≡ opened (new_record c.r c.queue_room c.detector_room c.step_limit c.a0 c.b0 c.a1 c.b1) (lent t0.old t1.old queue.old detector.old) }
{
    Control::open(
        c.r,
        c.queue_room,
        c.detector_room,
        c.step_limit,
        c.a0,
        c.b0,
        c.a1,
        c.b1,
        t0,
        t1,
        queue,
        detector,
    )
}

// Find: home in table 0, home in table 1, then the queue.
#[unsafe(no_mangle)]
pub extern "C" fn kt_find(
    c: Control,
    x: u32,
    t0: &[u32],
    t1: &[u32],
    queue: &[u32],
    detector: &[u32],
) -> Answer
    ensures { outcome (lent t0.now t1.now queue.now detector.now) result ≡ found c x (lent t0.now t1.now queue.now detector.now) }
{
    c.find(x, t0, t1, queue, detector)
}

// Define: the entry joins the back of the queue, then steps run.
#[unsafe(no_mangle)]
pub extern "C" fn kt_define(
    c: Control,
    x: u32,
    v: u32,
    t0: &mut [u32],
    t1: &mut [u32],
    queue: &mut [u32],
    detector: &mut [u32],
) -> Answer
    ensures { outcome (lent t0.new t1.new queue.new detector.new) result ≡ defined c x v (lent t0.old t1.old queue.old detector.old) }
{
    c.define(x, v, t0, t1, queue, detector)
}

// Change: another value at the place that find would use.
#[unsafe(no_mangle)]
pub extern "C" fn kt_change(
    c: Control,
    x: u32,
    v: u32,
    t0: &mut [u32],
    t1: &mut [u32],
    queue: &mut [u32],
    detector: &mut [u32],
) -> Answer
    ensures { outcome (lent t0.new t1.new queue.new detector.new) result ≡ changed c x v (lent t0.old t1.old queue.old detector.old) }
{
    c.change(x, v, t0, t1, queue, detector)
}

// Remove: the entry at the place that find would use goes.
#[unsafe(no_mangle)]
pub extern "C" fn kt_remove(
    c: Control,
    x: u32,
    t0: &mut [u32],
    t1: &mut [u32],
    queue: &mut [u32],
    detector: &mut [u32],
) -> Answer
    ensures { outcome (lent t0.new t1.new queue.new detector.new) result ≡ removed c x (lent t0.old t1.old queue.old detector.old) }
{
    c.remove(x, t0, t1, queue, detector)
}

// Settle: n steps, or fewer if the queue empties.
#[unsafe(no_mangle)]
pub extern "C" fn kt_settle(
    c: Control,
    n: u32,
    t0: &mut [u32],
    t1: &mut [u32],
    queue: &mut [u32],
    detector: &mut [u32],
) -> Answer
    ensures { outcome (lent t0.new t1.new queue.new detector.new) result ≡ settled c n (lent t0.old t1.old queue.old detector.old) }
{
    c.settle(n, t0, t1, queue, detector)
}

// Check: accepted exactly for a sound store.
#[unsafe(no_mangle)]
pub extern "C" fn kt_check(
    c: Control,
    t0: &[u32],
    t1: &[u32],
    queue: &[u32],
    detector: &[u32],
) -> Answer
    ensures { outcome (lent t0.now t1.now queue.now detector.now) result ≡ checked c (lent t0.now t1.now queue.now detector.now) }
{
    c.check(t0, t1, queue, detector)
}
