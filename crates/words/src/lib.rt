// Words that a caller lends: stored, cleared, moved up. Inner functions: their callers show what they require.
#![tactic(auto)]

ghost use Rattle.std.specs.Prelude.{◌≡◌, ◌+◌, ◌≤◌, length};
ghost use Rattle.std.proofs.lemmas.List.Edits.{sets};
ghost use Rattle.words.specs.Words.{cleared, closed};

// Words at a place.
pub fn put<const N: usize>(ws: &mut [u32], at: usize, words: [u32; N])
    requires { at + N ≤ length ws.old }
    ensures { ws.new ≡ sets ws.old at words.entry }
{
    ws[at..at + N].copy_from_slice(&words);
}

// Zeros from one place up to another. A loop and no `fill`, which stores the last word apart: with it a settle with nothing waiting took 1.16 to 1.22 of the
// limit's time, and takes 1.08 to 1.14 (docs/BENCHMARKS.md says what the limit is).
pub fn clear(ws: &mut [u32], from: usize, to: usize)
    requires { (from ≤ to) × (to ≤ length ws.old) }
    ensures { ws.new ≡ cleared from to ws.old }
{
    for i in from..to {
        ws[i] = 0;
    }
}

// The w words at a place go; those behind them, up to end, move up; zeros come behind those.
pub fn close_gap(ws: &mut [u32], at: usize, w: usize, end: usize)
    requires { (at + w ≤ end) × (end ≤ length ws.old) }
    ensures { ws.new ≡ closed at w end ws.old }
{
    ws.copy_within(at + w..end, at);
    clear(ws, end - w, end);
}
