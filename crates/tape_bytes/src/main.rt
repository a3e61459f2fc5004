// Writes commands as a tape has them, reads each back, and writes what was read again: two lines of bytes for each, which are the same. The
// request's own two come first (document 02, K4), then each command with values at the ends and values that show the order of their bytes, and what is
// not written; at the end the two last lines that a tape can have.
#![tactic(auto)]

use pe_tape::command::{Command, FedChunk};
use pe_tape::error::TapeError;
use pe_tape::line::last_line;
use pe_tape::read::read_command;
use pe_tape::write::write_command;
use pe_wire::error::PeError;
use seven_bit::refusal::Refusal;
use std::io;
use std::io::{BufWriter, Write};

// The bytes that were written, or why none were.
fn print_written(
    to: &mut impl Write,
    written: Result<usize, PeError>,
    out: &[u8],
) -> io::Result<()> {
    match written {
        Ok(n) => {
            for b in out.iter().take(n) {
                write!(to, "{b:02x} ")?;
            }
        }
        Err(e) => write!(to, "r{}", e.number())?,
    }
    writeln!(to)
}

// Reads the command that bytes begin with, and writes it again.
fn print_again(to: &mut impl Write, tape: &[u8]) -> io::Result<()> {
    let mut out = [0u8; 32];
    if let Ok(Some(read)) = read_command(tape, 0) {
        print_written(to, write_command(read.command, tape, &mut out), &out)?;
    }
    Ok(())
}

fn print_command(to: &mut impl Write, command: Command, source: &[u8]) -> io::Result<()> {
    let mut out = [0u8; 32];
    print_written(to, write_command(command, source, &mut out), &out)?;
    print_again(to, &out)
}

fn print_last(to: &mut impl Write, e: TapeError) -> io::Result<()> {
    let last = last_line(e);
    to.write_all(&last.bytes[..last.len])
}

fn feed(peer: u32, now_ms: u64, chunk_at: usize, chunk_len: usize) -> Command {
    Command::Feed(FedChunk {
        peer,
        now_ms,
        chunk_at,
        chunk_len,
    })
}

fn print_all(to: &mut impl Write) -> io::Result<()> {
    let chunk = [
        0x05, 0x02, 0x00, 0x7B, 0x7D, 0x01, 0x00, 0x01, 0x00, 0x00, 0x00,
    ];
    print_command(to, feed(5, 1000, 0, 11), &chunk)?;
    print_command(to, Command::Poll(4000), b"")?;
    print_command(to, feed(0xFFFF_FFFF, 0xFFFF_FFFF_FFFF_FFFF, 10, 1), &chunk)?;
    print_command(to, feed(0, 0, 11, 0), &chunk)?;
    print_command(to, Command::Cancel(0x0102_0304, 0xFF), b"")?;
    print_command(to, Command::Cancel(0, 0), b"")?;
    print_command(to, Command::Drop(0xFFFF_FFFF), b"")?;
    print_command(to, Command::Drop(0), b"")?;
    print_command(to, Command::Poll(0x0102_0304_0506_0708), b"")?;
    print_command(to, Command::Poll(0), b"")?;
    print_command(to, feed(5, 1000, 1, 11), &chunk)?;
    print_last(to, TapeError::UnknownCommand)?;
    print_last(to, TapeError::CutOff)
}

fn main(rt: HostRuntime) -> io::Result<()> {
    let mut to = BufWriter::new(rt.alloc(), io::writer(&rt))?;
    print_all(&mut to)?;
    to.flush()
}
