// Prints the table of next states: a line of decimal numbers, a space between, for each state.
#![tactic(auto)]

use std::io;
use std::io::{BufWriter, Write};

fn print_row(to: &mut impl Write, row: &[u8]) -> io::Result<()> {
    for (b, next) in row.iter().enumerate() {
        if b > 0 {
            to.write_all(b" ")?;
        }
        write!(to, "{next}")?;
    }
    to.write_all(b"\n")
}

fn print_table(to: &mut impl Write, table: &[u8; 3840]) -> io::Result<()> {
    for row in table.chunks(128) {
        print_row(to, row)?;
    }
    Ok(())
}

fn main(rt: HostRuntime) -> io::Result<()> {
    let mut to = BufWriter::new(rt.alloc(), io::writer(&rt))?;
    print_table(&mut to, &flat_json::states::table())?;
    to.flush()
}
