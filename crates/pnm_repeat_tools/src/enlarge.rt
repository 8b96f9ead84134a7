//! `pamenlarge`: each pixel repeated across and down, from pamenlarge(1).

ghost use Rattle.std.specs.Prelude.{◌≡◌, ◌⊎◌, [], OnOk, IfOk, IfErr, Ok, Err};
ghost use Rattle.pnm_tools.specs.declared.fault.ToolFault.TheVariants.{Memory};
ghost use Rattle.pnm_tools.specs.declared.tool.Tool.TheVariants.{Enlarge};
ghost use Rattle.pnm_repeat_tools.specs.Enlarging.{IsEnlarging};
ghost use Rattle.pnm_repeat_tools.specs.Keeping.{across_of, down_of, enlarged_due, kept_rows};
ghost use Rattle.pnm_tools.specs.ToolLimits.{IsExtent};
ghost use Rattle.pnm_tools.specs.Tools.{TakesHead, result_head};

use crate::waiting_rows::WaitingRows;
use pnm_image::{Head, RepeatedRows, Rows, Shape};
use pnm_tools::{ImageTool, ToolFault, head_within_limits};
use std::alloc::Global;
use std::mem;

/// Repeats pixels across, and rows down. It keeps the rows that came together, and makes the rows of the result when it
/// gives them: at most 65,536 bytes at once, unless one row takes more.
#[derive(Drop)]
pub struct Enlarger {
    across: u32,
    down: u32,
    /// The rows that came and are still to be enlarged.
    waiting: Option<WaitingRows>,
}

impl ImageTool for Enlarger {
    ghost tool = { λ w. Enlarge w.across w.down };

    ghost ready = { λ w shape rows. IsEnlarging w.across shape };

    ghost due = { enlarged_due };

    ghost kept = { kept_rows };

    fn begin(&mut self, alloc: Global, head: &Head) -> Result<Head, ToolFault> {
        self.waiting = None;
        enlarged_head(alloc, self.across, self.down, head)
    }

    fn take(&mut self, _alloc: Global, shape: Shape, _y: u32, rows: Rows) -> Result<(), ToolFault> {
        self.waiting = Some(WaitingRows::new(self.across, self.down, shape, rows));
        Ok(())
    }

    fn end(&mut self, _shape: Shape) {}

    /// Gives the result rows of several rows together. If a result row is long, or its copies exceed what is given at
    /// once, gives that row and the number of its copies, and makes no copies.
    #[inline(never)]
    fn give(&mut self, alloc: Global) -> Result<Option<RepeatedRows>, ToolFault> {
        let Some(waiting) = mem::replace(&mut self.waiting, None) else {
            return Ok(None);
        };
        let (count, down) = (waiting.count_together(), waiting.down());
        if count > 0 {
            let (enlarged, rest) = waiting.enlarge_next(alloc, count, down)?;
            self.waiting = rest;
            return Ok(Some(RepeatedRows::once(enlarged)));
        }
        let (row, rest) = waiting.enlarge_next(alloc, 1, 1)?;
        self.waiting = rest;
        Ok(Some(RepeatedRows::new(row, down)))
    }

    fn release(&mut self, _alloc: Global) {
        self.waiting = None;
    }
}

impl Enlarger {
    /// Creates the tool with these factors, before the first row.
    pub fn new(across: u32, down: u32) -> Enlarger
        ensures across { across_of result ≡ across }
        ensures down { down_of result ≡ down }
        ensures none { kept_rows result ≡ [] }
    {
        Enlarger {
            across,
            down,
            waiting: None,
        }
    }
}

/// Returns the head of the enlarged image, or the refusal.
fn enlarged_head(alloc: Global, across: u32, down: u32, head: &Head) -> Result<Head, ToolFault>
    requires { IsExtent across × IsExtent down }
    ensures made { IfOk result (λ made. result_head (Enlarge across down) head.now ≡ Ok made) }
    ensures ready { OnOk result (IsEnlarging across head.now.shape) }
    ensures refused { IfErr result (λ fault. (result_head (Enlarge across down) head.now ≡ Err fault)
        ⊎ ((fault ≡ Memory) × TakesHead (Enlarge across down) head.now)) }
{
    let shape = head.shape();
    if down != 1 && shape.height == 0 {
        return Err(ToolFault::OutOfOrder);
    }
    let (Some(width), Some(height)) = (
        shape.width.checked_mul(across),
        shape.height.checked_mul(down),
    ) else {
        return Err(ToolFault::TooLarge);
    };
    let enlarged = Shape {
        width,
        height,
        ..shape
    };
    head_within_limits(alloc, enlarged, head.tuple_type())
}
