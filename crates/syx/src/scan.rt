// Looks for the next byte of a file that matters: outside of a message F0, inside of one any byte above 7F.
ghost use Rattle.std.specs.Prelude.{true, false, ◌≡◌, ◌+◌, ◌≤◌, ◌<◌, eqb, length, get_or, drop};
ghost use Rattle.syx.specs.Scan.{has_stop, stop_len};

const DATA_MAX: u8 = 0x7F;

const SYSEX_START: u8 = 0xF0;

const SYSEX_END: u8 = 0xF7;

// Blocks of so many bytes are passed at once.
const LONG_BLOCK: usize = 64;

const SHORT_BLOCK: usize = 8;

// Is there such a byte? The loop has no early end, so that many bytes are asked at once.
fn has_stop(s: &[u8], inside: bool) -> bool
    ensures { result ≡ has_stop inside s.now }
{
    let mut found = false;
    for b in s {
        found |= (*b == SYSEX_START) | (inside & (DATA_MAX < *b));
    }
    found
}

// Passes whole blocks without such a byte: the next one is then less than a block away, or the file's end is.
// A while: `chunks_exact(block).take_while(..).count()` is proved too, but took up to 1.11 times as long (a megabyte with none), and 0.2 KB more code.
fn skip(file: &[u8], from: usize, inside: bool, block: usize) -> usize
    requires { (from ≤ length file.now) × (0 < block) }
    ensures { (from ≤ result) × (result ≤ length file.now)
        × (result + stop_len inside (drop result file.now) ≡ from + stop_len inside (drop from file.now))
        × (stop_len inside (drop result file.now) < block) }
{
    let mut i = from;
    while block <= file.len() - i {
        if has_stop(&file[i..i + block], inside) {
            return i;
        }
        i += block;
    }
    i
}

// The first F0 from a place on; the file's end where there is none (no Option: the walk goes on from there, and ends by itself).
pub(crate) fn find_start(file: &[u8], from: usize) -> usize
    requires { from ≤ length file.now }
    ensures { (result ≤ length file.now) × (result ≡ from + stop_len false (drop from file.now)) }
{
    let near = skip(file, from, false, LONG_BLOCK);
    let nearer = skip(file, near, false, SHORT_BLOCK);
    skip(file, nearer, false, 1)
}

// The first byte above 7F from a place on; the file's end where there is none.
pub(crate) fn find_status(file: &[u8], from: usize) -> usize
    requires { from ≤ length file.now }
    ensures { (result ≤ length file.now) × (result ≡ from + stop_len true (drop from file.now)) }
{
    let near = skip(file, from, true, LONG_BLOCK);
    let nearer = skip(file, near, true, SHORT_BLOCK);
    skip(file, nearer, true, 1)
}

// Is the byte at a place F7?
pub(crate) fn is_end(file: &[u8], at: usize) -> bool
    ensures { result ≡ eqb (get_or file.now at 0) 0xF7 }
{
    at < file.len() && file[at] == SYSEX_END
}
