// The card of line starts as it is printed: eight lines to a row, each row named by its first line.
use machine::LINES;
use std::io::{Print, Result};

const ROW_LENGTH: usize = 8;

pub(crate) fn halves(out: &impl Print) -> Result<()> {
    let starts = card::line_starts();
    let (text, hires) = starts.split_at(LINES);
    half(out, "text", text)?;
    half(out, "hires", hires)
}

fn half(out: &impl Print, name: &str, starts: &[u16]) -> Result<()> {
    for (row, row_starts) in starts.chunks(ROW_LENGTH).enumerate() {
        print!(out; "card {name} {}:", ROW_LENGTH * row)?;
        for start in row_starts {
            print!(out; " {start:04X}")?;
        }
        println!(out)?;
    }
    Ok(())
}
