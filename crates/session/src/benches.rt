// Stores with their buffers, in fixed memory.

ghost use Rattle.std.specs.Prelude.{◌≡◌, OnOk};
ghost use Rattle.std.specs.Io.KnownBytes.{Appends};
ghost use Rattle.store.specs.Refusals.{outcome};
ghost use Rattle.store.specs.Calls.{zeros, opened, checked};
ghost use Rattle.session.specs.Line.{command_line};

use crate::output::told;
use records::Command;
use std::io;
use std::io::Write;
use store::{Answer, Control};

// Store S with its buffers.
pub type StoreS = Bench<8, 12, 16>;

// The numbers of store S, for its open.
pub const STORE_S: Control = Control {
    r: 4,
    queue_room: 4,
    detector_room: 8,
    step_limit: 2,
    a0: 1,
    b0: 0,
    a1: 536870912,
    b1: 0,
    queue_len: 0,
    detector_len: 0,
};

// A store with its buffers: so many words each table, the queue and the detector.
#[derive(Clone, Copy)]
pub struct Bench<const TABLE: usize, const QUEUE: usize, const DETECTOR: usize> {
    pub control: Control,
    pub t0: [u32; TABLE],
    pub t1: [u32; TABLE],
    pub queue: [u32; QUEUE],
    pub detector: [u32; DETECTOR],
}

impl<const TABLE: usize, const QUEUE: usize, const DETECTOR: usize> Bench<TABLE, QUEUE, DETECTOR> {
    ghost use Rattle.session.specs.Buffers.{buffers_of, buffers_with, asked_of, outcome_on};

    // Buffers that hold a word everywhere, and no store yet.
    pub fn filled(word: u32) -> Self
        ensures control { result.control ≡ zeros }
        ensures buffers { buffers_of result ≡ buffers_with TABLE QUEUE DETECTOR word }
    {
        Bench {
            control: Control::default(),
            t0: [word; TABLE],
            t1: [word; TABLE],
            queue: [word; QUEUE],
            detector: [word; DETECTOR],
        }
    }

    // Opens a store of these numbers, whatever lengths stand beside them.
    pub fn opens(&mut self, asked: Control) -> Answer
        ensures opened { outcome (buffers_of self.new) result ≡ opened (asked_of asked) (buffers_of self.old) }
        ensures control { self.new.control ≡ result.control }
    {
        let answer = Control::open(
            asked.r,
            asked.queue_room,
            asked.detector_room,
            asked.step_limit,
            asked.a0,
            asked.b0,
            asked.a1,
            asked.b1,
            &mut self.t0,
            &mut self.t1,
            &mut self.queue,
            &mut self.detector,
        );
        self.control = answer.control;
        answer
    }

    // The answer to a command; the record and the buffers are those that it leaves.
    fn answers(&mut self, command: Command) -> Answer
        ensures ran { outcome (buffers_of self.new) result ≡ outcome_on self.old command }
        ensures control { self.new.control ≡ result.control }
    {
        let answer = commands::run(
            self.control,
            command,
            &mut self.t0,
            &mut self.t1,
            &mut self.queue,
            &mut self.detector,
        );
        self.control = answer.control;
        answer
    }

    // Runs a command and prints its line.
    pub fn runs<W: Write>(&mut self, out: &mut W, command: Command) -> io::Result<()>
        ensures buffers { buffers_of self.new ≡ (outcome_on self.old command).lent }
        ensures control { self.new.control ≡ (outcome_on self.old command).answer.control }
        ensures line { OnOk result (Appends (W.contents out.old) (W.contents out.new) (command_line command (outcome_on self.old command).answer)) }
    {
        let answer = self.answers(command);
        told(out, command, answer)
    }

    // Whether the store is sound: number 0 or 9, unless its record or a length is refused.
    pub fn checks(&self) -> Answer
        ensures { outcome (buffers_of self.now) result ≡ checked self.now.control (buffers_of self.now) }
    {
        self.control
            .check(&self.t0, &self.t1, &self.queue, &self.detector)
    }
}
