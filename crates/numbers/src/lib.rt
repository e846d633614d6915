// The two tables, the numbers of a control record, the home functions of a store, and what a good key is. Inner functions: their callers
// show what they require.
#![tactic(auto)]

ghost use Rattle.std.specs.Prelude.{◌≡◌, ◌%◌, ◌<◌};
ghost use Rattle.numbers.specs.Home.{p, home};
ghost use Rattle.numbers.specs.Tables.{table_of, side_of, other};
ghost use Rattle.numbers.specs.Homes.{home_in};
ghost use Rattle.numbers.specs.Ranges.{good_key};

// One of the two tables.
#[derive(Clone, Copy, PartialEq, Eq)]
pub enum Table {
    Zero,
    One,
}

// The table that a side word means.
impl From<u32> for Table {
    ghost from_gives = { λ side table. table ≡ table_of side };

    fn from(side: u32) -> Table {
        if side == 0 { Table::Zero } else { Table::One }
    }
}

// The side word of a table.
impl From<Table> for u32 {
    ghost from_gives = { λ table side. side ≡ side_of table };

    fn from(table: Table) -> u32 {
        match table {
            Table::Zero => 0,
            Table::One => 1,
        }
    }
}

impl Table {
    // Table 1 for table 0, and table 0 for table 1.
    pub fn other(self) -> Table
        ensures { result ≡ other self }
    {
        match self {
            Table::Zero => Table::One,
            Table::One => Table::Zero,
        }
    }
}

// The numbers of the two home functions, and the cells of a table.
#[derive(Clone, Copy)]
pub struct Functions {
    pub r: u32,
    pub a0: u32,
    pub b0: u32,
    pub a1: u32,
    pub b1: u32,
}

// How many entries wait and how many pairs are marked.
#[derive(Clone, Copy)]
pub struct Lengths {
    pub detector: u32,
    pub queue: u32,
}

// The other numbers of a control record: the rooms, the step limit and the lengths. No two stand side by side as in a control record: pairs would be copied
// as one, and the record that a call gives back would be written in pieces that a caller who reads it whole waits for.
#[derive(Clone, Copy)]
pub struct Rooms {
    pub queue_room: u32,
    pub step_limit: u32,
    pub lengths: Lengths,
    pub detector_room: u32,
}

// The numbers of a control record: the home functions, and all others.
#[derive(Clone, Copy)]
pub struct Setup {
    pub functions: Functions,
    pub rooms: Rooms,
}

// The remainder by p, which is 2^31 - 1: the bits above the lowest 31 count once more. What is left of a good key's sum is below 2p.
fn mod_p(sum: u64) -> u32
    ensures { result ≡ sum % p }
{
    let folded = sum % 2147483648 + sum / 2147483648;
    if 4294967294 <= folded {
        return (folded % 2147483647) as u32;
    }
    if folded < 2147483647 {
        folded as u32
    } else {
        (folded - 2147483647) as u32
    }
}

// The home of x in a table of r cells: a 64-bit product, and a 32-bit remainder by r, since the remainder by p is below 2^31. Any function of the page's form
// may use it.
#[tactic(auto, unfolding(crate::specs::Home::home))]
pub fn home_of(a: u32, b: u32, r: u32, x: u32) -> u32
    requires { 0 < r }
    ensures { result ≡ home a b r x }
{
    let sum = (a as u64) * (x as u64) + (b as u64);
    mod_p(sum) % r
}

impl Functions {
    // The home of x in a table.
    #[tactic(auto, unfolding(crate::specs::Homes::home0, crate::specs::Homes::home1))]
    pub fn home_in(self, table: Table, x: u32) -> u32
        requires { 0 < self.r }
        ensures { result ≡ home_in self table x }
    {
        match table {
            Table::Zero => home_of(self.a0, self.b0, self.r, x),
            Table::One => home_of(self.a1, self.b1, self.r, x),
        }
    }
}

// Whether x is a key: 1 to 2,147,483,647.
#[tactic(auto, unfolding(crate::specs::Ranges::good_key))]
pub fn is_key(x: u32) -> bool
    ensures { result ≡ good_key x }
{
    (1 <= x) & (x <= 2147483647)
}
