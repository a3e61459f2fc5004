// Writes a tape's commands.
ghost use Rattle.std.specs.Prelude.{[], ◌∷◌, ◌≡◌, ◌+◌, ◌≤◌, leb, length};
ghost use Rattle.seven_bit.specs.Reply.{granted, outcome, writing, ◌else◌then◌};
ghost use Rattle.pe_wire.specs.Errors.{pe_count};
ghost use Rattle.pe_tape.specs.declared.command.Command.TheVariants.{Feed as FeedOf, Cancel as CancelOf};
ghost use Rattle.pe_tape.specs.Told.{write_call};

use crate::command::{CANCEL, Command, DROP, FEED, FEED_OPERANDS, FedChunk, POLL};
use pe_wire::error::PeError;
use seven_bit::copy_in;

// The most bytes of a chunk: its length has two bytes.
const MAX_CHUNK_LEN: usize = 65_535;

// Writes a feed, with its chunk from the source.
fn write_feed(f: FedChunk, source: &[u8], out: &mut [u8]) -> Result<usize, PeError>
    ensures { outcome (pe_count result) out.new ≡ writing (write_call (FeedOf f) source.now (length out.old)) out.old }
{
    if source.len() < f.chunk_at || source.len() - f.chunk_at < f.chunk_len {
        return Err(PeError::BadShape);
    }
    if f.chunk_len > MAX_CHUNK_LEN {
        return Err(PeError::BadField);
    }
    let len = 1 + FEED_OPERANDS + f.chunk_len;
    if out.len() < len {
        return Err(PeError::BufferTooSmall);
    }
    out[0] = FEED;
    copy_in(out, 1, &f.peer.to_le_bytes());
    copy_in(out, 5, &f.now_ms.to_le_bytes());
    copy_in(out, 13, &(f.chunk_len as u16).to_le_bytes());
    let chunk_end = f.chunk_at + f.chunk_len;
    copy_in(out, 15, &source[f.chunk_at..chunk_end]);
    Ok(len)
}

// Writes a command that has nothing behind its operands.
fn write_short(kind: u8, operands: &[u8], out: &mut [u8]) -> Result<usize, PeError>
    requires { length operands.now ≤ 8 }
    ensures { outcome (pe_count result) out.new
        ≡ writing (leb (1 + length operands.now) (length out.old) else 3 then granted (kind ∷ operands.now)) out.old }
{
    let len = 1 + operands.len();
    if out.len() < len {
        return Err(PeError::BufferTooSmall);
    }
    out[0] = kind;
    copy_in(out, 1, operands);
    Ok(len)
}

fn write_cancel(peer: u32, request_id: u8, out: &mut [u8]) -> Result<usize, PeError>
    ensures { outcome (pe_count result) out.new ≡ writing (write_call (CancelOf peer request_id) [] (length out.old)) out.old }
{
    let [a, b, c, d] = peer.to_le_bytes();
    write_short(CANCEL, &[a, b, c, d, request_id], out)
}

// Writes a command as a tape has it; a feed's chunk lies in the source.
pub fn write_command(command: Command, source: &[u8], out: &mut [u8]) -> Result<usize, PeError>
    ensures { outcome (pe_count result) out.new
        ≡ writing (write_call command source.now (length out.old)) out.old }
{
    match command {
        Command::Feed(f) => write_feed(f, source, out),
        Command::Cancel(peer, request_id) => write_cancel(peer, request_id, out),
        Command::Drop(peer) => write_short(DROP, &peer.to_le_bytes(), out),
        Command::Poll(now_ms) => write_short(POLL, &now_ms.to_le_bytes(), out),
    }
}
