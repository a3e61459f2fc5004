// Plays a tape from standard input on a table of two peers, and writes a line for each command to standard output (document 02, K4). The tape
// is read in blocks; each block's lines are written before the next one is read.
#![tactic(auto)]

ghost use Rattle.std.specs.Prelude.{◌≤◌, ◌&&◌, ◌≡◌, eqb, length};
ghost use Rattle.pe_tape.specs.Told.{stop_told};
ghost use Rattle.tape.specs.Rest.{Behind, moved, is_over, memory_in, BlockPlayed};

use pe_reassembler::calls::new;
use pe_tape::error::TapeError;
use pe_tape::line::last_line;
use pe_tape::play::{SHAPE, play};
use std::io::Read;

#[derive(Clone, Copy, Debug, PartialEq, Eq)]
enum Failure {
    Input,
    Output,
}

impl Failure {
    fn message(self) -> &'static str {
        match self {
            Failure::Input => "tape: standard input cannot be read",
            Failure::Output => "tape: standard output cannot be written",
        }
    }
}

// The table that a tape is played on, with the outputs of its feeds: a clock, and for each of two peers 38 words and four slots.
#[derive(Drop)]
struct Rooms {
    numbers: [u64; 1 + 2 * 38],
    index: [u64; 2 * 4 * 64],
    headers: [u8; 2 * 4 * 256],
    arenas: [u8; 2 * 4 * 4096],
    out_header: [u8; 256],
    out_body: [u8; 4096],
}

// Reads once, behind the bytes that are there: how many came, none where the input ends or the block is full.
fn read_behind(input: &mut impl Read, block: &mut [u8], have: usize) -> Result<usize, Failure>
    requires { have ≤ length block.old }
    ensures { Behind block.old have result block.new }
{
    input.read(&mut block[have..]).map_err(|_| Failure::Input)
}

// Moves the bytes from one place up to another to the block's front.
fn keep_rest(block: &mut [u8], from: usize, to: usize)
    requires { (from ≤ to) × (to ≤ length block.old) }
    ensures { block.new ≡ moved block.old from to }
{
    for i in from..to {
        block[i - from] = block[i];
    }
}

fn print(rt: &impl Print, text: &[u8]) -> Result<(), Failure> {
    rt.write_all(text).map_err(|_| Failure::Output)
}

fn print_last(rt: &impl Print, e: TapeError) -> Result<(), Failure> {
    let last = last_line(e);
    print(rt, &last.bytes[..last.len])
}

// Is the play over? Behind an unknown command; and where nothing came and nothing was played: then nothing more will, since a block that is full
// holds a whole command.
fn is_over(stop: Option<TapeError>, nothing_came: bool, next: usize) -> bool
    ensures { result ≡ is_over (stop_told stop) (nothing_came && eqb next 0) }
{
    nothing_came && next == 0 || matches!(stop, Some(TapeError::UnknownCommand))
}

// Plays a block's first bytes and writes the lines: then what is not played stands at the block's front, and has so many bytes; none where the
// play is over.
fn play_block(
    rt: &impl Print,
    block: &mut [u8],
    len: usize,
    nothing_came: bool,
    rooms: &mut Rooms,
    out: &mut [u8],
) -> Result<Option<usize>, Failure>
    requires { len ≤ length block.old }
    ensures { BlockPlayed (memory_in rooms.old) block.old len nothing_came out.old result (memory_in rooms.new) block.new out.new }
{
    let progress = play(
        &block[..len],
        &mut rooms.numbers,
        &mut rooms.index,
        &mut rooms.headers,
        &mut rooms.arenas,
        &mut rooms.out_header,
        &mut rooms.out_body,
        out,
    );
    print(rt, &out[..progress.written])?;
    if is_over(progress.stop, nothing_came, progress.next) {
        if let Some(e) = progress.stop {
            print_last(rt, e)?;
        }
        return Ok(None);
    }
    keep_rest(block, progress.next, len);
    Ok(Some(len - progress.next))
}

// A proved loop has to end, and nothing says that a tape does: it counts its turns, up to a number that no run uses up.
fn replay(
    rt: &impl Print,
    input: &mut impl Read,
    block: &mut [u8],
    rooms: &mut Rooms,
    out: &mut [u8],
) -> Result<(), Failure> {
    let mut have = 0;
    for _ in 0..u64::MAX {
        let got = read_behind(input, block, have)?;
        let Some(left) = play_block(rt, block, have + got, got == 0, rooms, out)? else {
            break;
        };
        have = left;
    }
    Ok(())
}

// A block has room for the longest command, 65,550 bytes, and the output for the lines of a whole block: the shortest command has 5 bytes and
// a line of at most 6, and no other has a longer line for its bytes.
fn main(rt: HostRuntime) {
    let mut block = [0u8; 131072];
    let mut out = [0u8; 163840];
    let mut rooms = Rooms {
        numbers: [0; 1 + 2 * 38],
        index: [0; 2 * 4 * 64],
        headers: [0; 2 * 4 * 256],
        arenas: [0; 2 * 4 * 4096],
        out_header: [0; 256],
        out_body: [0; 4096],
    };
    // They are those of SHAPE, so that this is not refused.
    let _ = new(
        SHAPE,
        &mut rooms.numbers,
        &mut rooms.index,
        &rooms.headers,
        &rooms.arenas,
    );
    let played = replay(&rt, &mut rt.stdin(), &mut block, &mut rooms, &mut out);
    if let Err(failure) = played {
        let _ = rt.eprintln(failure.message());
    }
}
