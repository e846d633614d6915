// The key table: calls on a control record, by value, and on lent words. Every call takes every record, number and buffer. The slices are lent one by one,
// as the project's page of rules has them. A call matches on `fault` and answers in both arms, since its answer is C's struct: a private function that takes
// `?` would be a second one with the same clause, for each call.
#![tactic(auto)]

ghost use Rattle.std.specs.Prelude.{◌≡◌};
ghost use Rattle.rules.specs.Calls.{answer};
ghost use Rattle.layout.specs.Memory.{lent};
ghost use Rattle.refusals.specs.Numbers.{number_of, value_of, number_of_test};
ghost use Rattle.finding.specs.Inner.{told_by};
ghost use Rattle.store.specs.Memory.{rooms_of, setup_of};
ghost use Rattle.store.specs.Refusals.{outcome, answered};
ghost use Rattle.store.specs.Calls.{zeros, new_record, opened, found, defined, changed, removed, settled, checked};
ghost use Rattle.store.specs.Inner.{fault_in, carried, told_by_reply};

use finding::Done;
use layout::Buffers;
use numbers::{Functions, Lengths, Rooms, Setup};
use refusals::Refusal;

// r, Q, D, L, the numbers of the two home functions, and the two lengths: numbers and no struct, as C has them (`kt.h`). Memory is fixed, so queue and
// detector are longer than what is in use, and the lengths stand here.
#[repr(C)]
#[derive(Clone, Copy, Default)]
pub struct Control {
    pub r: u32,
    pub queue_room: u32,
    pub detector_room: u32,
    pub step_limit: u32,
    pub a0: u32,
    pub b0: u32,
    pub a1: u32,
    pub b1: u32,
    pub queue_len: u32,
    pub detector_len: u32,
}

// What every call answers. Number 0 is accepted: a number and no enum, since C reads it (`kt.h`).
#[repr(C)]
#[derive(Clone, Copy)]
pub struct Answer {
    pub control: Control,
    pub number: u32,
    pub value: u32,
    pub steps: u32,
    pub moves: u32,
}

// What a call gives back, refused or not: the number as the answer has it. As in `Done` both lengths are one word, so that the record takes them at once: as
// a pair of number and `Done` they became two again, and settle with nothing waiting took 1.20 of the limit's time for 1.08.
#[derive(Clone, Copy)]
struct Reply {
    lengths: u64,
    number: u32,
    value: u32,
    steps: u32,
    moves: u32,
}

// The numbers of a record: the home functions, and the rooms, the step limit and the lengths.
impl From<Control> for Setup {
    ghost from_gives = { λ c setup. setup ≡ setup_of c };

    fn from(c: Control) -> Setup {
        Setup {
            functions: Functions {
                r: c.r,
                a0: c.a0,
                b0: c.b0,
                a1: c.a1,
                b1: c.b1,
            },
            rooms: Rooms {
                queue_room: c.queue_room,
                step_limit: c.step_limit,
                lengths: Lengths {
                    detector: c.detector_len,
                    queue: c.queue_len,
                },
                detector_room: c.detector_room,
            },
        }
    }
}

impl Control {
    // Refusals 1, 2 and 3: of the record's numbers, and of the lengths of the buffers.
    fn fault(self, t0: &[u32], t1: &[u32], queue: &[u32], detector: &[u32]) -> Result<(), Refusal>
        ensures { number_of_test result ≡ fault_in self (lent t0.now t1.now queue.now detector.now) }
    {
        let setup = Setup::from(self);
        faults::fault(setup, t0.len(), t1.len(), queue.len(), detector.len())
    }

    // Accepted without steps and with value 0.
    fn accepted(self) -> Answer
        ensures { result ≡ answered self (answer 0 0 0 0) }
    {
        Answer {
            control: self,
            number: 0,
            value: 0,
            steps: 0,
            moves: 0,
        }
    }

    // Refused: the record as it was received.
    fn refused(self, refusal: Refusal) -> Answer
        ensures { result ≡ answered self (answer (number_of refusal) (value_of refusal) 0 0) }
    {
        Answer {
            control: self,
            number: refusal.number(),
            value: refusal.value(),
            steps: 0,
            moves: 0,
        }
    }

    // What a call gives back, refused or not: refused, the record's own lengths.
    fn told(self, done: Result<Done, Refusal>) -> Reply
        ensures { told_by_reply result ≡ told_by (rooms_of self) done }
    {
        match done {
            Ok(done) => Reply {
                lengths: done.lengths,
                number: 0,
                value: done.value,
                steps: done.steps,
                moves: done.moves,
            },
            Err(reason) => Reply {
                lengths: (self.queue_len as u64) + (self.detector_len as u64) * 4294967296,
                number: reason.number(),
                value: reason.value(),
                steps: 0,
                moves: 0,
            },
        }
    }

    // The record with the lengths that a call leaves, and its answer.
    fn after(mut self, done: Result<Done, Refusal>) -> Answer
        ensures { result ≡ carried self (told_by (rooms_of self) done) }
    {
        let reply = self.told(done);
        self.queue_len = (reply.lengths % 4294967296) as u32;
        self.detector_len = (reply.lengths / 4294967296) as u32;
        Answer {
            control: self,
            number: reply.number,
            value: reply.value,
            steps: reply.steps,
            moves: reply.moves,
        }
    }

    // Find: home in table 0, home in table 1, then the queue from the front. The first equal key answers.
    pub fn find(self, x: u32, t0: &[u32], t1: &[u32], queue: &[u32], detector: &[u32]) -> Answer
        ensures { outcome (lent t0.now t1.now queue.now detector.now) result ≡ found self x (lent t0.now t1.now queue.now detector.now) }
    {
        match self.fault(t0, t1, queue, detector) {
            Ok(()) => {
                let setup = Setup::from(self);
                self.after(finding::find(setup, x, t0, t1, queue))
            }
            Err(refusal) => self.refused(refusal),
        }
    }

    // Settle n: steps run until n are done or the queue is empty.
    pub fn settle(
        mut self,
        n: u32,
        t0: &mut [u32],
        t1: &mut [u32],
        queue: &mut [u32],
        detector: &mut [u32],
    ) -> Answer
        ensures { outcome (lent t0.new t1.new queue.new detector.new) result ≡ settled self n (lent t0.old t1.old queue.old detector.old) }
    {
        match self.fault(t0, t1, queue, detector) {
            Ok(()) => {
                let setup = Setup::from(self);
                let mut m = Buffers {
                    t0,
                    t1,
                    queue,
                    detector,
                };
                self.after(settling::settle(setup, n, &mut m))
            }
            Err(refusal) => self.refused(refusal),
        }
    }

    // Define: the entry (key, value, 0) joins the back of the queue, then steps run until L are done or the queue is empty.
    pub fn define(
        mut self,
        x: u32,
        v: u32,
        t0: &mut [u32],
        t1: &mut [u32],
        queue: &mut [u32],
        detector: &mut [u32],
    ) -> Answer
        ensures { outcome (lent t0.new t1.new queue.new detector.new) result ≡ defined self x v (lent t0.old t1.old queue.old detector.old) }
    {
        match self.fault(t0, t1, queue, detector) {
            Ok(()) => {
                let setup = Setup::from(self);
                let mut m = Buffers {
                    t0,
                    t1,
                    queue,
                    detector,
                };
                self.after(adding::define(setup, x, v, &mut m))
            }
            Err(refusal) => self.refused(refusal),
        }
    }

    // Change: the value at the place that find would use is replaced; the old one is answered. No steps.
    pub fn change(
        self,
        x: u32,
        v: u32,
        t0: &mut [u32],
        t1: &mut [u32],
        queue: &mut [u32],
        detector: &mut [u32],
    ) -> Answer
        ensures { outcome (lent t0.new t1.new queue.new detector.new) result ≡ changed self x v (lent t0.old t1.old queue.old detector.old) }
    {
        match self.fault(t0, t1, queue, detector) {
            Ok(()) => {
                let setup = Setup::from(self);
                self.after(changing::change(setup, x, v, t0, t1, queue))
            }
            Err(refusal) => self.refused(refusal),
        }
    }

    // Remove: the entry at the place that find would use goes; its value is answered. No steps.
    pub fn remove(
        mut self,
        x: u32,
        t0: &mut [u32],
        t1: &mut [u32],
        queue: &mut [u32],
        detector: &mut [u32],
    ) -> Answer
        ensures { outcome (lent t0.new t1.new queue.new detector.new) result ≡ removed self x (lent t0.old t1.old queue.old detector.old) }
    {
        match self.fault(t0, t1, queue, detector) {
            Ok(()) => {
                let setup = Setup::from(self);
                let mut m = Buffers {
                    t0,
                    t1,
                    queue,
                    detector,
                };
                self.after(removing::remove(setup, x, &mut m))
            }
            Err(refusal) => self.refused(refusal),
        }
    }

    // Open: checks numbers and lengths, writes zero to every word, gives a record with both lengths 0. Eight numbers one by one, as README shows the call.
    pub fn open(
        r: u32,
        queue_room: u32,
        detector_room: u32,
        step_limit: u32,
        a0: u32,
        b0: u32,
        a1: u32,
        b1: u32,
        t0: &mut [u32],
        t1: &mut [u32],
        queue: &mut [u32],
        detector: &mut [u32],
    ) -> Answer
        ensures { outcome (lent t0.new t1.new queue.new detector.new) result ≡ opened (new_record r queue_room detector_room step_limit a0 b0 a1 b1) (lent t0.old t1.old queue.old detector.old) }
    {
        let c = Control {
            r,
            queue_room,
            detector_room,
            step_limit,
            a0,
            b0,
            a1,
            b1,
            queue_len: 0,
            detector_len: 0,
        };
        match c.fault(t0, t1, queue, detector) {
            Ok(()) => {
                layout::clear_all(&mut Buffers {
                    t0,
                    t1,
                    queue,
                    detector,
                });
                c.accepted()
            }
            Err(refusal) => Control::default().refused(refusal),
        }
    }

    // Check: accepted exactly for a sound store.
    pub fn check(self, t0: &[u32], t1: &[u32], queue: &[u32], detector: &[u32]) -> Answer
        ensures { outcome (lent t0.now t1.now queue.now detector.now) result ≡ checked self (lent t0.now t1.now queue.now detector.now) }
    {
        match self.fault(t0, t1, queue, detector) {
            Ok(()) => {
                let Setup { functions, rooms } = Setup::from(self);
                if checks::is_sound(functions, rooms.lengths, t0, t1, queue, detector) {
                    return self.accepted();
                }
                self.refused(Refusal::NotSound)
            }
            Err(refusal) => self.refused(refusal),
        }
    }
}
