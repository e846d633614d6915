#![tactic(auto)]

use std::io::Write;
use std::{env, fs, io};

// Runs the case program's session on each file that an argument names; the name stands before the lines.
fn case_of(rt: &HostRuntime, path: &str) -> io::Result<()> {
    let mut out = rt.stdout();
    writeln!(out, "{path}")?;
    match fs::open(rt, path) {
        Ok(mut file) => session::run(&mut file, &mut out),
        Err(e) => {
            eprintln!(rt; "{path}: {e}")?;
            Ok(())
        }
    }
}

fn main(rt: HostRuntime) -> io::Result<()> {
    for path in env::args(&rt)?.skip(1) {
        case_of(&rt, path.as_str())?;
    }
    Ok(())
}
