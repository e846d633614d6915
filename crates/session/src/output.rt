// The lines that are printed.

ghost use Rattle.std.specs.Prelude.{OnOk, IfSome};
ghost use Rattle.std.specs.Io.KnownBytes.{Appends};
ghost use Rattle.session.specs.Line.{bad_line, line_text};

use std::fmt::Display;
use std::io;
use std::io::Write;
use store::Answer;

// A call's line: what was asked (of a command its mark and key word), refusal, value, steps, moves.
pub fn told<W: Write, H: Display + Drop>(out: &mut W, asked: H, a: Answer) -> io::Result<()>
    ensures { OnOk result (IfSome (H.output asked) (λ text. Appends (W.contents out.old) (W.contents out.new) (line_text text a))) }
{
    writeln!(
        out,
        "{asked} {} {} {} {}",
        a.number, a.value, a.steps, a.moves
    )
}

// The line of a bad record, with its place in the input. The mark is a piece of its own, as a command's is.
pub(crate) fn bad<W: Write>(out: &mut W, place: u64) -> io::Result<()>
    ensures { OnOk result (Appends (W.contents out.old) (W.contents out.new) (bad_line place)) }
{
    let mark = "??";
    writeln!(out, "{mark} {place} 10 0 0 0")
}
