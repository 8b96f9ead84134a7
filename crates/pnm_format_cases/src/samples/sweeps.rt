//! What many rows hold that differ a little: how many they are, and the CRC-32 of that.

use super::{How, pixels, rows};
use pnm_test_support::{Sweep, Unmade, cut_number, cut_pair};
use std::alloc::Global;

/// Adds a sweep over up to three ranges of numbers, of which one that isn't written is 0 alone. Of `new` the second one
/// tells a row from its copy.
pub fn write_sweep(
    alloc: Global,
    how: How,
    kind: &[u8],
    ranges: &[u8],
    out: &mut String,
) -> Result<(), Unmade> {
    let (first_a, last_a, rest) = cut_pair(ranges);
    let (first_b, last_b, rest) = match how {
        How::New => (0, 1, rest),
        _ => cut_pair(rest),
    };
    let (first_c, last_c, _) = cut_pair(rest);
    let mut sweep = Sweep::new();
    for a in first_a..=last_a {
        for b in first_b..=last_b {
            for c in first_c..=last_c {
                add_case(alloc, how, kind, (a, b, c), &mut sweep)?;
            }
        }
    }
    Ok(sweep.solve(out)?)
}

/// Adds what comes of these numbers, if they make a case.
fn add_case(
    alloc: Global,
    how: How,
    kind: &[u8],
    (a, b, c): (usize, usize, usize),
    sweep: &mut Sweep,
) -> Result<(), Unmade> {
    let mut out = String::new(alloc);
    match how {
        How::Columns => {
            let (byte, _) = cut_number(kind);
            pixels::write_columns(alloc, byte, a, b, &mut out)?;
        }
        How::Samples => rows::write_made(alloc, kind, a, &mut out)?,
        How::Parts if a.saturating_add(b) > rows::WHOLE => return Ok(()),
        How::Parts => rows::write_part(alloc, kind, a, b, &mut out)?,
        _ => pixels::write_made(alloc, how, (a, b, c), &mut out)?,
    }
    sweep.add(out.as_str());
    Ok(())
}
