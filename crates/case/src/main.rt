#![tactic(auto)]

use std::io;

// Runs the records of standard input on store S.
fn main(rt: HostRuntime) -> io::Result<()> {
    session::run(&mut rt.stdin(), &mut rt.stdout())
}
