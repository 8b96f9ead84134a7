//! The memory of rows that are no longer in use, for new rows.

ghost use Rattle.std.specs.Prelude.{◌≡◌, ◌≤◌, IfOk, length, vec_capacity};

use pnm_image::{RowVec, Rows};
use std::alloc::{AllocError, Global};
use std::collections::VecDeque;

/// The most rows that are kept.
const MOST_ROWS: usize = 128;

/// The most bytes of a row, or of rows that were together, that are kept.
const MOST_BYTES: usize = 65_536;

/// About how many bytes are kept in all: as many as a ring holds.
const MOST_KEPT: usize = 1_048_576;

/// A row is kept only if it has room for at most this many times the bytes that were asked for last: more room would
/// lie idle.
const MOST_TIMES: usize = 4;

/// Rows that are no longer in use, whose memory a source takes for its next ones, the oldest first. At most 128 of at
/// most 65,536 bytes are kept, about 1 MiB in all, and none before a source has asked for a row.
#[derive(Drop)]
pub struct SpareRows {
    rows: VecDeque<Vec<u8>>,
    /// The bytes of the row that was asked for last.
    wanted: usize,
}

impl SpareRows {
    /// Creates an empty store with room for 128 rows.
    ///
    /// # Errors
    ///
    /// If there is no memory for the places.
    pub fn new(alloc: Global) -> Result<SpareRows, AllocError> {
        Ok(SpareRows {
            rows: VecDeque::with_capacity(alloc, MOST_ROWS)?,
            wanted: usize::MAX,
        })
    }

    /// Creates a store that keeps no rows. It takes no memory.
    pub fn none(alloc: Global) -> SpareRows {
        SpareRows {
            rows: VecDeque::new(alloc),
            wanted: usize::MAX,
        }
    }

    /// Keeps the memory of the rows if it suits a row like the one that was asked for last, and drops it otherwise.
    pub fn keep_rows(&mut self, rows: Rows) {
        match rows.into_parts().0 {
            RowVec::Bits(bits) => self.keep_bytes(bits.into_bytes()),
            RowVec::Bytes(bytes) => self.keep_bytes(bytes),
            RowVec::Words(_) => {}
        }
    }

    /// Keeps the row if there is a place for it, and if it has room for the bytes that were asked for last, but not for
    /// many more.
    fn keep_bytes(&mut self, row: Vec<u8>) {
        let size = row.capacity();
        let most = self.wanted.saturating_mul(MOST_TIMES).min(MOST_BYTES);
        let count = self.rows.len();
        let has_place = count < self.rows.capacity() && count.saturating_mul(size) < MOST_KEPT;
        if self.wanted <= size && size <= most && has_place {
            self.rows.push_back_reserved(row);
        }
    }

    /// Returns a row of these bytes, in the memory that was kept the longest if they fit in it. Memory that is too
    /// small is freed.
    ///
    /// # Errors
    ///
    /// If there is no memory for them.
    #[inline(always)]
    pub(crate) fn copy_of(&mut self, alloc: Global, bytes: &[u8]) -> Result<Vec<u8>, AllocError>
        ensures { IfOk result (λ row. row.items ≡ bytes.now) }
    {
        self.wanted = bytes.len();
        if let Some(mut row) = self.rows.pop_front() {
            if bytes.len() <= row.capacity() {
                refill(&mut row, bytes);
                return Ok(row);
            }
        }
        Vec::from_slice(alloc, bytes)
    }
}

/// Replaces the bytes of the row with these bytes, which it has room for.
fn refill(row: &mut Vec<u8>, bytes: &[u8])
    requires { length bytes.now ≤ vec_capacity row.old }
    ensures { row.new.items ≡ bytes.now }
{
    row.clear();
    let Ok(()) = row.extend_from_slice(bytes) else {
        unreachable!();
    };
}
