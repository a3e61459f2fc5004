// What the examples print: a name, then the answer, or the refusal's number.
use seven_bit::refusal::Refusal;
use std::fmt::Display;
use std::io::Write;
use std::{fmt, io};

// Bytes, in two hexadecimal digits each.
#[derive(Clone, Copy)]
pub(crate) struct Hex<'a>(&'a [u8]);

impl Display for Hex<'_> {
    fn fmt<W: fmt::Write>(&self, f: &mut fmt::Formatter<W>) -> fmt::Result {
        if self.0.is_empty() {
            return write!(f, " empty");
        }
        for b in self.0 {
            write!(f, " {b:02x}")?;
        }
        Ok(())
    }
}

// The n bytes from at on.
pub(crate) fn part(s: &[u8], at: usize, n: usize) -> Hex<'_> {
    let rest = s.get(at..).unwrap_or(s);
    Hex(rest.get(..n).unwrap_or(rest))
}

pub(crate) fn answer<T: Display + Copy, E: Refusal + Copy>(
    to: &mut impl Write,
    what: &str,
    answer: Result<T, E>,
) -> io::Result<()> {
    match answer {
        Ok(value) => writeln!(to, "{what} {value}"),
        Err(e) => refused(to, what, e),
    }
}

pub(crate) fn refused<E: Refusal + Copy>(to: &mut impl Write, what: &str, e: E) -> io::Result<()> {
    writeln!(to, "{what} refused {}", e.number())
}

// The first n bytes that were written, or why none was.
pub(crate) fn written<E: Refusal + Copy>(
    to: &mut impl Write,
    what: &str,
    answer: Result<usize, E>,
    out: &[u8],
) -> io::Result<()> {
    match answer {
        Ok(n) => writeln!(to, "{what}{}", part(out, 0, n)),
        Err(e) => refused(to, what, e),
    }
}
