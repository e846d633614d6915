// A session on store S: records are read from a reader and run, and a line is printed for each.
#![tactic(auto)]

mod benches;
mod input;
mod output;

pub use benches::{Bench, STORE_S, StoreS};
use input::Window;
use output::bad;
pub use output::told;
use records::Reading;
use std::io;
use std::io::{Read, Write};
use std::ops::ControlFlow;

// Store S and the input, kept from turn to turn.
#[derive(Drop)]
struct Session {
    bench: StoreS,
    window: Window,
}

impl Session {
    fn starts<R: Read>(input: &mut R) -> io::Result<Session> {
        let mut bench = StoreS::filled(0);
        bench.opens(STORE_S);
        let window = Window::opens(input)?;
        Ok(Session { bench, window })
    }

    // A record or a fill. What can not be read at the front of a window that was just filled, no more input can mend: the session is over.
    fn turn<R: Read, W: Write>(
        &mut self,
        input: &mut R,
        out: &mut W,
    ) -> io::Result<ControlFlow<()>> {
        match self.window.takes() {
            Reading::Good(command, _) => self.bench.runs(out, command)?,
            Reading::Refused(place) if self.window.is_fresh() => {
                bad(out, self.window.place_in_input(place))?;
                return Ok(ControlFlow::Break(()));
            }
            Reading::End if self.window.is_fresh() => return Ok(ControlFlow::Break(())),
            _ => self.window.refills(input)?,
        }
        Ok(ControlFlow::Continue(()))
    }
}

// A proved loop has to end, and nothing says that the input does. So the turns are counted, up to a number that no run reaches.
pub fn run<R: Read, W: Write>(input: &mut R, out: &mut W) -> io::Result<()> {
    let mut session = Session::starts(input)?;
    for _ in 0..u64::MAX {
        if session.turn(input, out)?.is_break() {
            break;
        }
    }
    Ok(())
}
