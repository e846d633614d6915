// The test of the cells of a table, in time linear in it. Inner functions: their callers show what they require.
#![tactic(auto)]

ghost use Rattle.std.specs.Prelude.{◌≡◌, List, ◌+◌, ◌*◌, ◌≤◌, ◌<◌, length, get_or};
ghost use Rattle.rules.specs.Store.{Cell, Numbers};
ghost use Rattle.rules.specs.Check.{is_held, cell_ok, cells_ok};
ghost use Rattle.layout.specs.Memory.{rules_table, cells_in, homes_of};
ghost use Rattle.steps.specs.Shape.{with_table};

use numbers::{Functions, Table};

// Whether the home of x in a table, whose words are t, has it.
pub fn is_held(f: Functions, table: Table, x: u32, t: &[u32]) -> bool
    requires { (0 < f.r) × (f.r ≤ 32768) × (length t.now ≡ 2 * f.r) }
    ensures { let b = rules_table table in (n : Numbers) (o : List Cell) → n.home ≡ homes_of f → result ≡ is_held n (with_table b (cells_in f.r t.now) o) b x }
{
    let i = f.home_in(table, x) as usize;
    t[2 * i] == x
}

// Whether cell i of a table, whose words are t, is as it must be beside the other table's.
fn cell_ok(f: Functions, table: Table, i: usize, t: &[u32], other: &[u32]) -> bool
    requires i_lt_r { i < f.r }
    requires r_bound { (f.r ≤ 32768) × (length t.now ≡ 2 * f.r) × (length other.now ≡ 2 * f.r) }
    ensures { let b = rules_table table in (n : Numbers) → n.home ≡ homes_of f → result ≡ cell_ok n (with_table b (cells_in f.r t.now) (cells_in f.r other.now)) b i (record { key = get_or t.now (2 * i) 0; value = get_or t.now (2 * i + 1) 0 }) }
{
    let k = t[2 * i];
    if k == 0 {
        return t[2 * i + 1] == 0;
    }
    numbers::is_key(k) && f.home_in(table, k) as usize == i && !is_held(f, table.other(), k, other)
}

// Whether every cell of a table, whose words are t, is as it must be.
pub fn cells_ok(f: Functions, table: Table, t: &[u32], other: &[u32]) -> bool
    requires r_nonzero { (0 < f.r) × (f.r ≤ 32768) × (length t.now ≡ 2 * f.r) × (length other.now ≡ 2 * f.r) }
    ensures { let b = rules_table table in (n : Numbers) → n.home ≡ homes_of f → result ≡ cells_ok n (with_table b (cells_in f.r t.now) (cells_in f.r other.now)) b 0 (cells_in f.r t.now) }
{
    let r = f.r as usize;
    (0..r).all(|i| cell_ok(f, table, i, t, other))
}
