// Reads .syx files: where the bodies of their messages lie.
#![tactic(auto)]

mod scan;

ghost use Rattle.std.specs.Prelude.{◌≡◌, ◌≤◌, ◌<◌, length, drop};
ghost use Rattle.syx.specs.Syx.{outside, read_from, read_file};
ghost use Rattle.syx.specs.Listing.{syx_number, syx_value, syx_told, counts_of, listing, list_call};
ghost use Rattle.syx.specs.Walk.{HasRoom, SameColumns, walked_in, walked_on_in};

use crate::scan::{find_start, find_status, is_end};
use seven_bit::refusal::Refusal;

#[derive(Clone, Copy, Debug, PartialEq, Eq)]
pub enum SyxError {
    // A lent column has fewer places than the file has messages.
    TooManyMessages,
}

impl Refusal for SyxError {
    ghost number = { syx_number };

    ghost value = { syx_value };

    // Document 02's number.
    fn number(self) -> u8 {
        match self {
            SyxError::TooManyMessages => 32,
        }
    }

    fn value(self) -> u8 {
        0
    }
}

// How many messages are listed, and how many were torn.
#[derive(Clone, Copy, Debug, PartialEq, Eq)]
pub struct Listed {
    pub messages: u64,
    pub torn: u64,
}

// What is counted up to a place of the file.
#[derive(Clone, Copy)]
struct Tally {
    from: usize,
    messages: usize,
    torn: usize,
}

// The lent columns, and for how many messages there is room in them.
#[derive(Drop)]
struct Columns<'a> {
    room: usize,
    places: &'a mut [u64],
    lengths: &'a mut [u64],
}

impl Columns<'_> {
    ghost use Rattle.syx.specs.Walk.{stored, HasRoom, SameColumns};

    // Puts a message at place k of both columns, where k is below the room.
    fn store(&mut self, k: usize, place: usize, len: usize)
        requires { HasRoom self.old }
        ensures places { self.new.places.now ≡ stored self.old.room k place self.old.places.now }
        ensures lengths { self.new.lengths.now ≡ stored self.old.room k len self.old.lengths.now }
        ensures same { SameColumns self.old self.new }
    {
        if k < self.room {
            self.places[k] = place as u64;
            self.lengths[k] = len as u64;
        }
    }
}

// The next message from the tally's place on, counted, and stored where there is room.
fn next_message(file: &[u8], tally: Tally, columns: &mut Columns) -> Tally
    requires counted { (tally.from < length file.now) × (tally.messages ≤ tally.from) × (tally.torn ≤ tally.from) }
    requires room_fits { HasRoom columns.old }
    ensures goes_on { (tally.from < result.from) × (result.from ≤ length file.now) × (result.messages ≤ result.from) × (result.torn ≤ result.from) }
    ensures rest_walked { walked_on_in columns.new (read_from outside result.from (drop result.from file.now)) result.messages result.torn
        ≡ walked_on_in columns.old (read_from outside tally.from (drop tally.from file.now)) tally.messages tally.torn }
    ensures same { SameColumns columns.old columns.new }
{
    let from = tally.from;
    let start = find_start(file, from);
    if start == file.len() {
        return Tally {
            from: start,
            ..tally
        };
    }
    let place = start + 1;
    let end = find_status(file, place);
    if !is_end(file, end) {
        return Tally {
            from: end,
            torn: tally.torn + 1,
            ..tally
        };
    }
    columns.store(tally.messages, place, end - place);
    Tally {
        from: end,
        messages: tally.messages + 1,
        ..tally
    }
}

// All messages of the file, counted; the first ones stored, as many as there is room for.
fn walk(file: &[u8], columns: &mut Columns) -> Tally
    requires { HasRoom columns.old }
    ensures all { walked_in columns.new result.messages result.torn ≡ walked_on_in columns.old (read_file file.now) 0 0 }
    ensures same { SameColumns columns.old columns.new }
{
    let mut tally = Tally {
        from: 0,
        messages: 0,
        torn: 0,
    };
    while tally.from < file.len() {
        tally = next_message(file, tally, columns);
    }
    tally
}

// Lists where each message's body begins, behind its F0, and how many bytes it has, up to its F7. The first walk has no room, and counts.
pub fn list(file: &[u8], places: &mut [u64], lengths: &mut [u64]) -> Result<Listed, SyxError>
    ensures { listing (syx_told counts_of result) places.new lengths.new
        ≡ list_call file.now places.old lengths.old }
{
    let mut columns = Columns {
        room: 0,
        places,
        lengths,
    };
    let messages = walk(file, &mut columns).messages;
    if columns.places.len() < messages || columns.lengths.len() < messages {
        return Err(SyxError::TooManyMessages);
    }
    columns.room = messages;
    let listed = walk(file, &mut columns);
    Ok(Listed {
        messages: listed.messages as u64,
        torn: listed.torn as u64,
    })
}
