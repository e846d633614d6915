// Runs a command on a store: one function from a command to the call that it asks for. Any record, command and buffers, which are lent as to the calls.
#![tactic(auto)]

ghost use Rattle.std.specs.Prelude.{◌≡◌};
ghost use Rattle.layout.specs.Memory.{lent};
ghost use Rattle.store.specs.Refusals.{outcome};
ghost use Rattle.store.specs.Calls.{does};
ghost use Rattle.commands.specs.Call.{call_of};

use records::Command;
use store::{Answer, Control};

// The call that a command asks for.
pub fn run(
    c: Control,
    command: Command,
    t0: &mut [u32],
    t1: &mut [u32],
    queue: &mut [u32],
    detector: &mut [u32],
) -> Answer
    ensures { outcome (lent t0.new t1.new queue.new detector.new) result ≡ does (call_of command) c (lent t0.old t1.old queue.old detector.old) }
{
    match command {
        Command::Define(key, value) => c.define(key, value, t0, t1, queue, detector),
        Command::Change(key, value) => c.change(key, value, t0, t1, queue, detector),
        Command::Find(key) => c.find(key, t0, t1, queue, detector),
        Command::Remove(key) => c.remove(key, t0, t1, queue, detector),
        Command::Settle(n) => c.settle(n, t0, t1, queue, detector),
    }
}
