// Runs the lines of "Checked by hand" on the real calls. Each call prints a line: its mark or name, its key or budget, the refusal, the value, the steps,
// the moves. After some of them the words of a buffer are printed.
#![tactic(auto)]

use records::Command;
use records::Command::{Change, Define, Find, Remove, Settle};
use session::{Bench, STORE_S, StoreS, told};
use std::io::Write;
use std::{fmt, io};
use store::{Answer, Control};

// Words, a space before each.
#[derive(Clone, Copy)]
struct Words<'a>(&'a [u32]);

impl fmt::Display for Words<'_> {
    fn fmt<W: fmt::Write>(&self, f: &mut fmt::Formatter<W>) -> fmt::Result {
        for word in self.0 {
            write!(f, " {word}")?;
        }
        Ok(())
    }
}

// The line of a buffer.
fn shows<W: Write>(out: &mut W, name: &str, buffer: &[u32]) -> io::Result<()> {
    writeln!(out, "{name}{}", Words(buffer))
}

// The line of open, with the cells asked for, or of check, with 0.
fn line<W: Write>(out: &mut W, name: &str, key: u32, answer: Answer) -> io::Result<()> {
    told(out, format_args!("{name} {key}"), answer)
}

// Opens a store on a bench.
fn opens<W: Write, const TABLE: usize, const QUEUE: usize, const DETECTOR: usize>(
    out: &mut W,
    b: &mut Bench<TABLE, QUEUE, DETECTOR>,
    asked: Control,
) -> io::Result<()> {
    let answer = b.opens(asked);
    line(out, "open", asked.r, answer)
}

// Runs commands, one after the other.
fn runs<W: Write, const TABLE: usize, const QUEUE: usize, const DETECTOR: usize>(
    out: &mut W,
    b: &mut Bench<TABLE, QUEUE, DETECTOR>,
    commands: &[Command],
) -> io::Result<()> {
    for command in commands {
        b.runs(out, *command)?;
    }
    Ok(())
}

// Define 1 (10), 5 (20), 9 (30), 21 (40), then 13 (50): 5 waits.
fn fills<W: Write>(out: &mut W, b: &mut StoreS) -> io::Result<()> {
    runs(
        out,
        b,
        &[Define(1, 10), Define(5, 20), Define(9, 30), Define(21, 40)],
    )?;
    shows(out, "table 0:", &b.t0)?;
    shows(out, "table 1:", &b.t1)?;
    b.runs(out, Define(13, 50))?;
    shows(out, "queue:", &b.queue)?;
    runs(out, b, &[Find(5), Define(5, 21)])
}

// Settle 2, define 17: six keys, five cells.
fn crowds<W: Write>(out: &mut W, b: &mut StoreS) -> io::Result<()> {
    b.runs(out, Settle(2))?;
    shows(out, "table 1:", &b.t1)?;
    runs(out, b, &[Define(17, 60), Settle(2), Settle(2), Settle(2)])?;
    shows(out, "queue:", &b.queue)?;
    shows(out, "detector:", &b.detector)?;
    b.runs(out, Settle(1))?;
    shows(out, "queue:", &b.queue)?;
    shows(out, "detector:", &b.detector)
}

// Remove 21, settle 2 empties the queue; then what is refused.
fn refuses<W: Write>(out: &mut W, b: &mut StoreS) -> io::Result<()> {
    runs(out, b, &[Remove(21), Settle(2)])?;
    shows(out, "queue:", &b.queue)?;
    runs(
        out,
        b,
        &[
            Settle(0),
            Settle(3),
            Find(0),
            Find(2147483648),
            Define(0, 1),
            Define(2147483648, 1),
            Change(5, 22),
            Remove(2),
        ],
    )
}

// Store S over buffers that hold nines. Check before and after a free cell gets a value.
fn store_s<W: Write>(out: &mut W) -> io::Result<()> {
    let mut b = StoreS::filled(9);
    opens(out, &mut b, STORE_S)?;
    fills(out, &mut b)?;
    crowds(out, &mut b)?;
    refuses(out, &mut b)?;
    line(out, "check", 0, b.checks())?;
    b.t0[1] = 7;
    line(out, "check", 0, b.checks())
}

// The numbers of store T: those of S with one cell a table, one place, two pairs and one step.
const STORE_T: Control = Control {
    r: 1,
    queue_room: 1,
    detector_room: 2,
    step_limit: 1,
    ..STORE_S
};

// Store T: 1 waits; then it waits with side 0 and two other pairs are marked, and a settle sets it aside.
fn store_t<W: Write>(out: &mut W) -> io::Result<()> {
    let mut b = Bench::<2, 3, 4>::filled(9);
    opens(out, &mut b, STORE_T)?;
    runs(
        out,
        &mut b,
        &[
            Define(1, 10),
            Define(2, 20),
            Define(3, 30),
            Define(1, 11),
            Settle(1),
            Define(3, 30),
            Settle(1),
        ],
    )?;
    shows(out, "queue:", &b.queue)?;
    shows(out, "detector:", &b.detector)?;
    b.runs(out, Settle(1))?;
    shows(out, "queue:", &b.queue)?;
    shows(out, "detector:", &b.detector)?;
    line(out, "check", 0, b.checks())
}

// The numbers of a store with r cells a table and Q places.
fn sized(r: u32, queue_room: u32) -> Control {
    Control {
        r,
        queue_room,
        a1: 1,
        ..STORE_T
    }
}

// r 0 and r 32,769 are refused 1; Q 64 is taken, 65 refused 1; a buffer of another length is refused 2.
fn limits<W: Write>(out: &mut W) -> io::Result<()> {
    let mut short = Bench::<2, 3, 4>::filled(9);
    opens(out, &mut short, sized(0, 1))?;
    opens(out, &mut short, sized(32769, 1))?;
    shows(out, "queue:", &short.queue)?;
    opens(out, &mut short, sized(1, 2))?;
    opens(out, &mut Bench::<2, 192, 4>::filled(9), sized(1, 64))?;
    opens(out, &mut Bench::<2, 195, 4>::filled(9), sized(1, 65))
}

fn main(rt: HostRuntime) -> io::Result<()> {
    let mut out = rt.stdout();
    store_s(&mut out)?;
    store_t(&mut out)?;
    limits(&mut out)
}
