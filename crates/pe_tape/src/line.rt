// The text of a line.
ghost use Rattle.std.specs.Prelude.{◌≡◌, ◌+◌, ◌≤◌, ◌<◌, length, replicate};
ghost use Rattle.seven_bit.specs.Parts.{put};
ghost use Rattle.pe_tape.specs.Number.{decimal};
ghost use Rattle.pe_tape.specs.Line.{marked, whole, shown_text, line_text, end_text};
ghost use Rattle.pe_tape.specs.Errors.{tape_refused};
ghost use Rattle.pe_tape.specs.Told.{shown_told};

use crate::error::TapeError;
use seven_bit::refusal::Refusal;

// The most bytes of a line: `1 w `, two numbers of 64 bits with a space between them, and the line's end.
pub const LINE_LEN: usize = 46;

// What a line shows behind its command: a number, a refusal's number, or the two lengths of a whole list.
#[derive(Clone, Copy)]
pub(crate) enum Shown {
    Bare(u64),
    Marked(u8),
    Whole(usize, usize),
}

// Each of these puts text at a place, and returns the place behind it.
fn put_decimal(out: &mut [u8], at: usize, n: u64) -> usize
    requires { at + 20 ≤ length out.old }
    ensures { (result ≡ at + length (decimal n)) × (result ≤ at + 20) × (out.new ≡ put out.old at (decimal n)) }
{
    if n < 10 {
        out[at] = b'0' + n as u8;
        return at + 1;
    }
    let last = put_decimal(out, at, n / 10);
    out[last] = b'0' + (n % 10) as u8;
    last + 1
}

fn put_marked(out: &mut [u8], at: usize, n: u8) -> usize
    requires { at + 21 ≤ length out.old }
    ensures { (result ≡ at + length (shown_text (marked n))) × (result ≤ at + 21) × (out.new ≡ put out.old at (shown_text (marked n))) }
{
    out[at] = b'r';
    put_decimal(out, at + 1, n as u64)
}

fn put_whole(out: &mut [u8], at: usize, header_len: usize, body_len: usize) -> usize
    requires { at + 43 ≤ length out.old }
    ensures { (result ≡ at + length (shown_text (whole header_len body_len))) × (result ≤ at + 43)
        × (out.new ≡ put out.old at (shown_text (whole header_len body_len))) }
{
    out[at] = b'w';
    out[at + 1] = b' ';
    let behind = put_decimal(out, at + 2, header_len as u64);
    out[behind] = b' ';
    put_decimal(out, behind + 1, body_len as u64)
}

fn put_shown(out: &mut [u8], at: usize, shown: Shown) -> usize
    requires { at + 43 ≤ length out.old }
    ensures { (result ≡ at + length (shown_text (shown_told shown))) × (result ≤ at + 43)
        × (out.new ≡ put out.old at (shown_text (shown_told shown))) }
{
    match shown {
        Shown::Bare(n) => put_decimal(out, at, n),
        Shown::Marked(n) => put_marked(out, at, n),
        Shown::Whole(header_len, body_len) => put_whole(out, at, header_len, body_len),
    }
}

// The line of a command, whose byte is one digit.
pub(crate) fn put_line(out: &mut [u8], at: usize, kind: u8, shown: Shown) -> usize
    requires { (kind < 10) × (at + 46 ≤ length out.old) }
    ensures { (result ≡ at + length (line_text kind (shown_told shown))) × (result ≤ at + 46)
        × (out.new ≡ put out.old at (line_text kind (shown_told shown))) }
{
    out[at] = b'0' + kind;
    out[at + 1] = b' ';
    let end = put_shown(out, at + 2, shown);
    out[end] = b'\n';
    end + 1
}

// A line of at most 22 bytes: an r, a number of 64 bits, the line's end.
#[derive(Clone, Copy)]
pub struct LastLine {
    pub bytes: [u8; 22],
    pub len: usize,
}

// The last line of a tape that is not played to its end.
pub fn last_line(e: TapeError) -> LastLine
    ensures bytes_value { (result.bytes ≡ put (replicate 22 0) 0 (end_text (tape_refused e))) × (result.len ≡ length (end_text (tape_refused e))) }
    ensures len_in_bounds { result.len ≤ length result.bytes }
{
    let mut bytes = [0u8; 22];
    let end = put_marked(&mut bytes, 0, e.number());
    bytes[end] = b'\n';
    LastLine {
        bytes,
        len: end + 1,
    }
}
