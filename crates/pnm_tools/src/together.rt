//! How many rows a tool gives together.

ghost use Rattle.std.specs.Prelude.{◌≤◌};

/// The most samples of a row that is given together with others. A longer row costs little to hand over by itself.
const MOST_SAMPLES: usize = 8192;

/// The most samples of rows that are given together: as words they take 65,536 bytes.
const MOST_TOGETHER: usize = 32_768;

/// Returns how many of `rows` rows of `each` samples are given together: one if the rows are long.
pub fn count_together(each: usize, rows: u32) -> u32
    ensures most { result ≤ rows }
    ensures some { 1 ≤ rows → 1 ≤ result }
{
    if each == 0 || each > MOST_SAMPLES {
        return rows.min(1);
    }
    rows.min((MOST_TOGETHER / each) as u32)
}
