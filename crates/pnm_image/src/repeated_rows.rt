//! Rows that repeat, held once.

ghost use Rattle.std.specs.Prelude.{◌≡◌, ◌≤◌, ◌↔◌, ◌++◌, IsTrue, IfOk, length};
ghost use Rattle.pnm_image.specs.Repeats.{repeated};
ghost use Rattle.pnm_image.specs.Rows.{rows_list};

use crate::copies::{count_together, repeat_rows};
use crate::rows::Rows;
use std::alloc::{AllocError, Global};
use std::marker::Model;

/// Rows of one image that repeat: the whole group comes a number of times, one group after another. The group is held
/// once, whatever the number.
#[derive(Debug, Drop)]
pub struct RepeatedRows {
    rows: Rows,
    times: u32,
}

impl Model for RepeatedRows {
    ghost use Rattle.std.specs.Prelude.{◌≤◌, List, ℕ};
    ghost use Rattle.pnm_image.specs.Repeats.{repeated};

    ghost Value = { List (List ℕ) };

    ghost view = { λ r. repeated r.times r.rows };

    ghost invariant = { λ r. 1 ≤ r.times };
}

impl RepeatedRows {
    /// The rows, `times` times, without a copy.
    pub fn new(rows: Rows, times: u32) -> RepeatedRows
        requires some { 1 ≤ times }
        ensures { result ≡ repeated times rows }
    {
        RepeatedRows { rows, times }
    }

    /// The rows, as they are.
    #[inline(always)]
    pub fn once(rows: Rows) -> RepeatedRows
        ensures { result ≡ rows }
    {
        RepeatedRows::new(rows, 1)
    }

    /// The rows as they are held, and how many times they come.
    #[inline(always)]
    pub fn parts(&self) -> (&Rows, u32)
        ensures rows { self.now ≡ repeated result.1 result.0.now }
        ensures some { 1 ≤ result.1 }
    {
        (&self.rows, self.times)
    }

    /// Whether there are several rows.
    #[inline(always)]
    pub fn are_several(&self) -> bool
        ensures several { IsTrue result ↔ 2 ≤ length self.now }
        ensures some { 1 ≤ length self.now }
    {
        let count = self.rows.count();
        self.times > 1 || count > 1
    }

    /// All rows one after another, a copy of the group for each time that it comes. Rows that come once are as they are
    /// held, without a copy.
    ///
    /// # Errors
    ///
    /// If there is no memory for the copies.
    pub fn into_rows(self, alloc: Global) -> Result<Rows, AllocError>
        ensures { IfOk result (λ rows. rows ≡ self) }
    {
        let (rows, times) = self.into_parts();
        if times == 1 {
            return Ok(rows);
        }
        if rows.count().checked_mul(times).is_none() {
            return Err(AllocError);
        }
        repeat_rows(alloc, &rows, times)
    }

    /// The rows as they are held, and how many times they come, without a copy.
    #[inline(always)]
    pub fn into_parts(self) -> (Rows, u32)
        ensures rows { self ≡ repeated result.1 result.0 }
        ensures some { 1 ≤ result.1 }
    {
        (self.rows, self.times)
    }

    /// Returns the next copies, as many as take at most 65,536 bytes, or one, and the copies still to be made, if any
    /// are. If only one copy is left, returns the rows as they are held, without a copy.
    ///
    /// # Errors
    ///
    /// If there is no memory for the copies.
    pub fn next_copies(self, alloc: Global) -> Result<(Rows, Option<RepeatedRows>), AllocError>
        ensures copies { IfOk result (λ parts. self ≡ parts.0 ++ rows_list parts.1) }
        ensures some { IfOk result (λ parts. 1 ≤ length parts.0) }
    {
        let (rows, times) = self.into_parts();
        let next = count_together(&rows).min(times);
        if times == 1 {
            return Ok((rows, None));
        }
        let copies = repeat_rows(alloc, &rows, next)?;
        if next == times {
            return Ok((copies, None));
        }
        Ok((copies, Some(RepeatedRows::new(rows, times - next))))
    }
}
