//! A row tool at work: at most one row of the result for each row.

ghost use Rattle.pnm_image.specs.Rows.{rows_list};
ghost use Rattle.pnm_row_tools.specs.RowKeeping.{IsReadyForRows};

use crate::row_tool::RowTool;
use pnm_image::{Head, RepeatedRows, Rows, Shape};
use pnm_tools::{ImageTool, ToolFault};
use std::alloc::Global;
use std::mem;

/// A tool that makes at most one row of the result from each row, and the rows that it has made.
#[derive(Drop)]
pub struct ByRow<T: RowTool> {
    /// The tool.
    pub tool: T,
    /// The rows of the result that are given next; `None` if none are due.
    pub made: Option<Rows>,
}

impl<T: RowTool> ImageTool for ByRow<T> {
    ghost tool = { λ w. T.tool w.tool };

    ghost ready = { λ w shape rows. IsReadyForRows T.ready w.tool shape rows };

    ghost due = { λ w. rows_list w.made };

    ghost kept = { λ w. rows_list w.made };

    #[tactic(auto, unfolding(crate::specs::RowKeeping::IsReadyForRows))]
    fn begin(&mut self, alloc: Global, head: &Head) -> Result<Head, ToolFault> {
        self.made = None;
        self.tool.begin(alloc, head)
    }

    #[tactic(auto, unfolding(crate::specs::RowKeeping::IsReadyForRows))]
    fn take(&mut self, alloc: Global, shape: Shape, y: u32, rows: Rows) -> Result<(), ToolFault> {
        self.made = self.tool.rows(alloc, shape, y, rows)?;
        Ok(())
    }

    #[tactic(auto, unfolding(crate::specs::RowKeeping::IsReadyForRows))]
    fn end(&mut self, _shape: Shape) {}

    fn give(&mut self, _alloc: Global) -> Result<Option<RepeatedRows>, ToolFault> {
        Ok(mem::replace(&mut self.made, None).map(RepeatedRows::once))
    }

    fn release(&mut self, _alloc: Global) {
        self.made = None;
    }
}
