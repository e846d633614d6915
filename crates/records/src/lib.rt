// Reads command records: ten bytes each, a mark of two letters, a key word and a value word. Any bytes and any place.
#![tactic(auto)]

ghost use Rattle.std.specs.Prelude.{◌≡◌, ◌+◌, ◌≤◌, length, Some};
ghost use Rattle.records.specs.Record.{fields, if_good, record_at, read_at};
ghost use Rattle.records.specs.Told.{fields_of, heading_of, heading_text, mark_text, command_text, told};
ghost use Rattle.records.specs.Inner.{said, if_zero};

use std::fmt;

// What a record asks of a store.
#[derive(Clone, Copy)]
pub enum Command {
    Define(u32, u32),
    Change(u32, u32),
    Find(u32),
    Remove(u32),
    Settle(u32),
}

// The mark's letters and the key word of a record.
#[derive(Clone, Copy)]
pub struct Heading {
    pub first: u8,
    pub second: u8,
    pub key: u32,
}

// What reading at a place answers: the command and the next place, refusal 10 with the place where the record began, or the end.
// The rules name this form: an enum whose good case carries a command enum and the next place. So it is no Option and no Result.
#[derive(Clone, Copy)]
pub enum Reading {
    Good(Command, usize),
    Refused(usize),
    End,
}

// A command without a value word: its record's value word is spare, and has to be 0.
fn spared(value: u32, command: Command) -> Option<Command>
    ensures { said result ≡ if_zero value (fields_of command) }
{
    if value == 0 { Some(command) } else { None }
}

// What a mark and two words mean, if they mean anything.
#[tactic(auto, unfolding(crate::specs::Record::is_good))]
fn meaning_of(first: u8, second: u8, key: u32, value: u32) -> Option<Command>
    ensures { said result ≡ if_good (fields first second key value) }
{
    match (first, second) {
        (b'D', b'F') => Some(Command::Define(key, value)),
        (b'C', b'H') => Some(Command::Change(key, value)),
        (b'F', b'D') => spared(value, Command::Find(key)),
        (b'R', b'M') => spared(value, Command::Remove(key)),
        (b'S', b'T') => spared(value, Command::Settle(key)),
        _ => None,
    }
}

// The record at a place that has ten bytes.
#[tactic(auto, unfolding(crate::specs::Record::record_at))]
fn record_at(bytes: &[u8], place: usize) -> Reading
    requires { place + 10 ≤ length bytes.now }
    ensures { told result ≡ record_at bytes.now place }
{
    let key = little_endian::word_at(bytes, place + 2);
    let value = little_endian::word_at(bytes, place + 6);
    match meaning_of(bytes[place], bytes[place + 1], key, value) {
        Some(command) => Reading::Good(command, place + 10),
        None => Reading::Refused(place),
    }
}

// Reading at a place.
#[tactic(auto, unfolding(crate::specs::Record::read_at))]
pub fn read(bytes: &[u8], place: usize) -> Reading
    ensures { told result ≡ read_at bytes.now place }
{
    match bytes.len().checked_sub(place) {
        Some(0) => Reading::End,
        Some(left) if left >= 10 => record_at(bytes, place),
        _ => Reading::Refused(place),
    }
}

// The mark and the key word of a command's record. Under its own name and not as a `From`: this equation is what the crate promises of it.
pub fn heading_of(command: Command) -> Heading
    ensures { result ≡ heading_of command }
{
    let (first, second, key) = match command {
        Command::Define(key, _) => (b'D', b'F', key),
        Command::Change(key, _) => (b'C', b'H', key),
        Command::Find(key) => (b'F', b'D', key),
        Command::Remove(key) => (b'R', b'M', key),
        Command::Settle(n) => (b'S', b'T', n),
    };
    Heading { first, second, key }
}

// A heading is printed as its mark and its key word: `DF 5`.
impl fmt::Display for Heading {
    ghost output = { λ h. Some (heading_text h) };

    fn fmt<W: fmt::Write>(&self, f: &mut fmt::Formatter<W>) -> fmt::Result {
        let (first, second) = (char::from(self.first), char::from(self.second));
        write!(f, "{first}{second} {}", self.key)
    }
}

// The letters of a command's mark, as a text.
fn mark_of(command: Command) -> &'static str
    ensures { result.now ≡ mark_text command }
{
    match command {
        Command::Define(_, _) => "DF",
        Command::Change(_, _) => "CH",
        Command::Find(_) => "FD",
        Command::Remove(_) => "RM",
        Command::Settle(_) => "ST",
    }
}

// A command is printed as its heading, the mark in one piece: a writer that takes pieces whole never takes half a mark.
impl fmt::Display for Command {
    ghost output = { λ command. Some (command_text command) };

    fn fmt<W: fmt::Write>(&self, f: &mut fmt::Formatter<W>) -> fmt::Result {
        let command = *self;
        let mark = mark_of(command);
        write!(f, "{mark} {}", heading_of(command).key)
    }
}
