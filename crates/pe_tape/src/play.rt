// Plays a tape on a table, and writes a line for each command.
ghost use Rattle.std.specs.Prelude.{true, ◌≡◌, ◌+◌, ◌≤◌, IfOk, IfSome, length, drop};
ghost use Rattle.seven_bit.specs.Parts.{part};
ghost use Rattle.pe_wire.specs.Errors.{pe_count};
ghost use Rattle.pe_slot.specs.Feed.{fed_told};
ghost use Rattle.pe_reassembler.specs.Feed.{memory};
ghost use Rattle.pe_reassembler.specs.Calls.{cancelled_told};
ghost use Rattle.pe_reassembler.specs.Poll.{poll_call};
ghost use Rattle.pe_tape.specs.Command.{feed as feed_of, read_command};
ghost use Rattle.pe_tape.specs.Line.{feed_shown, cancel_shown, count_shown};
ghost use Rattle.pe_tape.specs.Play.{tape_shape, column, called, make_call, play_left, play_call};
ghost use Rattle.pe_tape.specs.Steps.{step_told, step_left, play_step};
ghost use Rattle.pe_tape.specs.Table.{memory_in, SameRooms};
ghost use Rattle.pe_tape.specs.Told.{command_of, lies, placed, shown_told, stop_told};

use crate::command::{Command, FedChunk};
use crate::error::TapeError;
use crate::line::{LINE_LEN, Shown, put_line};
use crate::read::read_command;
use pe_reassembler::calls::{cancel, drop_peer};
use pe_reassembler::feed::feed;
use pe_reassembler::poll::poll;
use pe_reassembler::shape::Shape;
use pe_slot::slot::Whole;
use pe_wire::error::PeError;
use seven_bit::refusal::Refusal;

// The table that a tape is played on.
pub const SHAPE: Shape = Shape {
    max_peers: 2,
    header_bytes: 256,
    tx_bytes: 4096,
    fragment_records: 64,
};

// How many bytes of the tape are played, how many of the output written, and why no more are, if some are left.
#[derive(Clone, Copy, Debug, PartialEq, Eq)]
pub struct Progress {
    pub next: usize,
    pub written: usize,
    pub stop: Option<TapeError>,
}

fn feed_shown(answer: Result<Option<Whole>, PeError>) -> Shown
    ensures { shown_told result ≡ feed_shown (fed_told answer) }
{
    match answer {
        Ok(None) => Shown::Bare(0),
        Ok(Some(list)) => Shown::Whole(list.header_len, list.body_len),
        Err(e) => Shown::Bare(e.number() as u64),
    }
}

fn cancel_shown(answer: Result<bool, PeError>) -> Shown
    ensures { shown_told result ≡ cancel_shown (cancelled_told answer) }
{
    count_shown(answer.map(u64::from))
}

fn count_shown(answer: Result<u64, PeError>) -> Shown
    ensures { shown_told result ≡ count_shown (pe_count answer) }
{
    match answer {
        Ok(n) => Shown::Bare(n),
        Err(e) => Shown::Marked(e.number()),
    }
}

// The table that a tape is played on, with the outputs of its feeds.
#[derive(Drop)]
struct Table<'a> {
    numbers: &'a mut [u64],
    index: &'a mut [u64],
    headers: &'a mut [u8],
    arenas: &'a mut [u8],
    out_header: &'a mut [u8],
    out_body: &'a mut [u8],
}

impl Table<'_> {
    ghost use Rattle.pe_tape.specs.Table.{memory_in, SameRooms};

    fn feed(&mut self, f: FedChunk, tape: &[u8]) -> Shown
        requires { f.chunk_at + f.chunk_len ≤ length tape.now }
        ensures left { called (shown_told result) (memory_in self.new)
            ≡ make_call (memory_in self.old) (feed_of f.peer f.now_ms (part f.chunk_at f.chunk_len tape.now)) }
        ensures same { SameRooms self.old self.new }
    {
        let chunk_at = f.chunk_at;
        let chunk_end = chunk_at + f.chunk_len;
        let answer = feed(
            SHAPE,
            self.numbers,
            self.index,
            self.headers,
            self.arenas,
            f.peer,
            &tape[chunk_at..chunk_end],
            f.now_ms,
            self.out_header,
            self.out_body,
        );
        feed_shown(answer)
    }

    // Makes the call that a command stands for: what its line shows.
    fn call(&mut self, command: Command, tape: &[u8]) -> Shown
        requires { lies command tape.now ≡ true }
        ensures left { called (shown_told result) (memory_in self.new) ≡ make_call (memory_in self.old) (command_of tape.now command) }
        ensures same { SameRooms self.old self.new }
    {
        match command {
            Command::Feed(f) => self.feed(f, tape),
            Command::Cancel(peer, request_id) => {
                cancel_shown(cancel(SHAPE, self.numbers, peer, request_id))
            }
            Command::Drop(peer) => count_shown(drop_peer(SHAPE, self.numbers, peer)),
            Command::Poll(now_ms) => call_poll(self.numbers, now_ms),
        }
    }
}

fn call_poll(numbers: &mut [u64], now_ms: u64) -> Shown
    ensures { (shown_told result ≡ count_shown (poll_call tape_shape numbers.old now_ms column column).answer)
        × (numbers.new ≡ (poll_call tape_shape numbers.old now_ms column column).numbers) }
{
    let mut peers = [0u64; 8];
    let mut request_ids = [0u64; 8];
    count_shown(poll(SHAPE, numbers, now_ms, &mut peers, &mut request_ids))
}

// What a command that was played leaves: where the next one begins, and the place behind its line.
#[derive(Clone, Copy)]
struct Line {
    next: usize,
    end: usize,
}

// Plays the command at a place of the tape, if there is one, and writes its line behind what is written.
fn play_next(
    tape: &[u8],
    at: usize,
    table: &mut Table,
    out: &mut [u8],
    written: usize,
) -> Result<Option<Line>, TapeError>
    requires { written ≤ length out.old }
    ensures out_after { step_left (step_told result) (memory_in table.new) out.new
        ≡ play_step (memory_in table.old) (placed at (read_command (drop at tape.now))) out.old written }
    ensures same { SameRooms table.old table.new }
    ensures in_output { IfOk result (λ played. IfSome played (λ line. line.end ≤ length out.old)) }
{
    let Some(read) = read_command(tape, at)? else {
        return Ok(None);
    };
    if out.len() - written < LINE_LEN {
        return Err(PeError::BufferTooSmall.into());
    }
    let shown = table.call(read.command, tape);
    let end = put_line(out, written, read.command.kind(), shown);
    Ok(Some(Line {
        next: read.next,
        end,
    }))
}

// Plays a tape's commands one after the other.
fn play_on(tape: &[u8], table: &mut Table, out: &mut [u8]) -> Progress
    ensures out_after { play_left result.next result.written (stop_told result.stop) (memory_in table.new) out.new
        ≡ play_call (memory_in table.old) tape.now out.old }
    ensures next_in_bounds { (result.next ≤ length tape.now) × (result.written ≤ length out.old) }
    ensures same { SameRooms table.old table.new }
{
    let mut at = 0;
    let mut written = 0;
    let stop = loop {
        match play_next(tape, at, table, out, written) {
            Ok(Some(line)) => {
                at = line.next;
                written = line.end;
            }
            Ok(None) => break None,
            Err(e) => break Some(e),
        }
    };
    Progress {
        next: at,
        written,
        stop,
    }
}

// Plays a tape's commands one after the other on a table of SHAPE, and writes their lines one after the other into out, as long as there is
// room for LINE_LEN bytes. Where it stops, what is not played is as if it had never been read; lent again with what follows it, it is played then.
pub fn play(
    tape: &[u8],
    numbers: &mut [u64],
    index: &mut [u64],
    headers: &mut [u8],
    arenas: &mut [u8],
    out_header: &mut [u8],
    out_body: &mut [u8],
    out: &mut [u8],
) -> Progress
    ensures out_after { play_left result.next result.written (stop_told result.stop) (memory numbers.new index.new headers.new
        arenas.new out_header.new out_body.new) out.new ≡ play_call (memory numbers.old
        index.old headers.old arenas.old out_header.old out_body.old)
        tape.now out.old }
    ensures next_in_bounds { (result.next ≤ length tape.now) × (result.written ≤ length out.old) }
{
    let mut table = Table {
        numbers,
        index,
        headers,
        arenas,
        out_header,
        out_body,
    };
    play_on(tape, &mut table, out)
}
