// Refusals 1, 2 and 3: of a record's numbers and of the buffers' lengths. Any numbers and any lengths.
#![tactic(auto)]

ghost use Rattle.std.specs.Prelude.{◌≡◌, true};
ghost use Rattle.refusals.specs.Numbers.{number_of_test};
ghost use Rattle.faults.specs.Faults.{numbers_in_range, lengths_fit, fault_of};

use numbers::Setup;
use refusals::Refusal;

// Whether the record's numbers are in range.
fn in_range(setup: Setup) -> bool
    ensures { result ≡ numbers_in_range setup }
{
    let f = setup.functions;
    let c = setup.rooms;
    ((1 <= f.r) & (f.r <= 32768))
        & ((1 <= c.queue_room) & (c.queue_room <= 64))
        & ((2 <= c.detector_room) & (c.detector_room <= 128))
        & ((1 <= c.step_limit) & (c.step_limit <= 64))
        & ((1 <= f.a0) & (f.a0 <= 2147483646))
        & ((0 <= f.b0) & (f.b0 <= 2147483646))
        & ((1 <= f.a1) & (f.a1 <= 2147483646))
        & ((0 <= f.b1) & (f.b1 <= 2147483646))
}

// Whether the buffers have the lengths that a record in range implies.
fn sized(setup: Setup, n0: usize, n1: usize, nq: usize, nd: usize) -> bool
    requires { numbers_in_range setup ≡ true }
    ensures { result ≡ lengths_fit setup n0 n1 nq nd }
{
    let r = setup.functions.r as usize;
    let q = setup.rooms.queue_room as usize;
    let d = setup.rooms.detector_room as usize;
    (n0 == 2 * r) & (n1 == 2 * r) & (nq == 3 * q) & (nd == 2 * d)
}

// Refusal 1, 2 or 3 for the record and the buffers' lengths.
pub fn fault(setup: Setup, n0: usize, n1: usize, nq: usize, nd: usize) -> Result<(), Refusal>
    ensures { number_of_test result ≡ fault_of setup n0 n1 nq nd }
{
    if !in_range(setup) {
        return Err(Refusal::NumberOutOfRange);
    }
    if !sized(setup, n0, n1, nq, nd) {
        return Err(Refusal::BufferLength);
    }
    let c = setup.rooms;
    if (c.lengths.queue <= c.queue_room) & (c.lengths.detector <= c.detector_room) {
        Ok(())
    } else {
        Err(Refusal::LengthAboveRoom)
    }
}
