//! Rows that came together and are still to be enlarged.

ghost use Rattle.std.specs.Prelude.{◌≡◌, ◌≤◌, ◌<◌, ◌*◌, ◌^◌, length, take, drop, IfOk, IfErr};
ghost use Rattle.std.specs.List.{AllByRecursion};
ghost use Rattle.pnm_image.specs.Places.{IsRowOf};
ghost use Rattle.pnm_tools.specs.declared.fault.ToolFault.TheVariants.{Memory};
ghost use Rattle.pnm_tools.specs.ToolLimits.{IsExtent};
ghost use Rattle.pnm_repeat_tools.specs.Enlarging.{IsEnlarging, larger_rows, waiting_due};
ghost use Rattle.pnm_repeat_tools.specs.Internal.Enlarging.{to_enlarge};

use crate::larger::{LEAST_REPEATED, MOST_GIVEN, bytes_of_row, enlarge_together};
use pnm_image::{Rows, Shape};
use pnm_tools::ToolFault;
use std::alloc::{AllocError, Global};
use std::marker::Model;

/// Rows of an image that came together, some of which are still to be enlarged, and the factors.
#[derive(Drop)]
pub(crate) struct WaitingRows {
    across: u32,
    down: u32,
    /// The shape of the image.
    shape: Shape,
    rows: Rows,
    /// The first row that is still to be enlarged.
    next: u32,
}

impl Model for WaitingRows {
    ghost use Rattle.std.specs.Prelude.{drop};
    ghost use Rattle.pnm_repeat_tools.specs.Enlarging.{ToEnlarge};
    ghost use Rattle.pnm_repeat_tools.specs.Internal.Enlarging.{CanBeEnlarged, to_enlarge};

    ghost Value = { ToEnlarge };

    ghost view = { λ w. to_enlarge w.across w.down w.shape (drop w.next w.rows) };

    ghost invariant = { λ w. CanBeEnlarged (to_enlarge w.across w.down w.shape (drop w.next w.rows)) };
}

impl WaitingRows {
    /// Takes rows of an image of this shape, without a copy. Each pixel is to be repeated `across` times, and each row
    /// `down` times.
    pub fn new(across: u32, down: u32, shape: Shape, rows: Rows) -> WaitingRows
        requires lawful { IsExtent across × IsExtent down }
        requires ready { IsEnlarging across shape }
        requires rows { AllByRecursion (IsRowOf shape) rows }
        ensures { result ≡ to_enlarge across down shape rows }
    {
        // No effect at run time: from this, a proof learns that there is a row.
        let _ = rows.count();
        WaitingRows {
            across,
            down,
            shape,
            rows,
            next: 0,
        }
    }

    /// Returns how many times each row is to be repeated down.
    pub fn down(&self) -> u32
        ensures down { result ≡ self.now.down }
        ensures some { 1 ≤ result }
    {
        self.down
    }

    /// Returns how many of the next rows are enlarged at once: as many as make at most 65,536 bytes of the result, or 0
    /// if one row makes more.
    pub fn count_together(&self) -> u32
        ensures within { result ≤ length self.now.rows }
        ensures pixels { self.now.shape.width * result < 2 ^ 32 }
        ensures few { result * self.now.down < 2 ^ 32 }
    {
        let wide = self.rows.row_length() * self.across as usize;
        let bytes = bytes_of_row(self.rows.as_slice(), self.shape.depth, wide);
        if self.down > 1 && bytes >= LEAST_REPEATED {
            return 0;
        }
        let most = MOST_GIVEN / (bytes * self.down as usize);
        (self.rows.count() - self.next).min(most as u32)
    }

    /// Enlarges the next `count` rows, each `down` times down. Returns them and the rows that still wait, if any. The
    /// only fault is `Memory`.
    pub fn enlarge_next(
        self,
        alloc: Global,
        count: u32,
        down: u32,
    ) -> Result<(Rows, Option<WaitingRows>), ToolFault>
        requires within { (1 ≤ count) × (count ≤ length self.rows) }
        requires pixels { self.shape.width * count < 2 ^ 32 }
        requires down { (1 ≤ down) × (count * down < 2 ^ 32) }
        ensures made { IfOk result (λ parts. parts.0 ≡ larger_rows self.across down self.shape (take count self.rows)) }
        ensures rest { IfOk result (λ parts. waiting_due parts.1
            ≡ larger_rows self.across self.down self.shape (drop count self.rows)) }
        ensures refused { IfErr result (λ fault. fault ≡ Memory) }
    {
        let (across, shape) = (self.across, self.shape);
        let (next, rest) = self.split(alloc, count)?;
        if across == 1 && down == 1 {
            return Ok((next, rest));
        }
        let enlarged = enlarge_together(alloc, across, down, shape, &next)?;
        Ok((enlarged, rest))
    }

    /// Returns the next `count` rows unchanged, without a copy if no others came with them, and the rows behind them,
    /// if any are left.
    ///
    /// # Errors
    ///
    /// If there is no memory for a copy.
    fn split(self, alloc: Global, count: u32) -> Result<(Rows, Option<WaitingRows>), AllocError>
        requires { (1 ≤ count) × (count ≤ length self.rows) }
        ensures next { IfOk result (λ parts. parts.0 ≡ take count self.rows) }
        ensures rest { IfOk result (λ parts. waiting_due parts.1
            ≡ larger_rows self.across self.down self.shape (drop count self.rows)) }
    {
        let all = self.rows.count();
        if count == all {
            return Ok((self.rows, None));
        }
        let next = self.rows.part(alloc, self.next, count)?;
        let end = self.next + count;
        if end == all {
            return Ok((next, None));
        }
        Ok((next, Some(WaitingRows { next: end, ..self })))
    }
}
