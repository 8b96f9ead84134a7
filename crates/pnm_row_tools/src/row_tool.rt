//! A tool that makes at most one row of the result from each row, and keeps no row: its head rule and its row rule.

ghost use Rattle.std.specs.Prelude.{ℕ, ◌≡◌, ◌+◌, ◌≤◌, ◌⊎◌, List, [], length, OnOk, IfOk, IfErr, Ok, Err};
ghost use Rattle.std.specs.List.{AllByRecursion};
ghost use Rattle.pnm_image.specs.Places.{IsRowOf};
ghost use Rattle.pnm_image.specs.declared.shape.Shape.{Shape as ShapeValue};
ghost use Rattle.pnm_tools.specs.declared.fault.ToolFault.TheVariants.{Memory};
ghost use Rattle.pnm_tools.specs.declared.tool.Tool.{Tool as ToolValue};
ghost use Rattle.pnm_image.specs.Rows.{rows_list};
ghost use Rattle.pnm_tools.specs.Answering.{rows_answer};
ghost use Rattle.pnm_tools.specs.Tools.{IsLawfulTool, TakesHead, result_head, end_answer};

use pnm_image::{Head, Rows, Shape};
use pnm_tools::ToolFault;
use std::alloc::Global;

/// The head rule and the row rule of a tool. Rows come together; a single row comes as `Rows` of one.
pub trait RowTool {
    /// Which tool it is.
    ghost tool: { Self → ToolValue };

    /// It is ready for the rows of an image of this shape.
    ghost ready: { Self → ShapeValue → Type 0 };

    /// Returns the head of the result of an image with this head, or the refusal. After a head, the tool is ready for
    /// the image's rows.
    fn begin(&mut self, alloc: Global, head: &Head) -> Result<Head, ToolFault>
        requires { IsLawfulTool (tool self.old) }
        ensures same { tool self.new ≡ tool self.old }
        ensures head { IfOk result (λ made. result_head (tool self.old) head.now ≡ Ok made) }
        ensures ready { OnOk result (ready self.new head.now.shape) }
        ensures refused { IfErr result (λ fault. (result_head (tool self.old) head.now ≡ Err fault)
            ⊎ ((fault ≡ Memory) × TakesHead (tool self.old) head.now)) };

    /// Returns the result rows made from `rows`, if any. `rows` are of an image of this shape, from row `y` on.
    ///
    /// # Errors
    ///
    /// `Memory` if there is no memory for them.
    fn rows(
        &self,
        alloc: Global,
        shape: Shape,
        y: u32,
        rows: Rows,
    ) -> Result<Option<Rows>, ToolFault>
        requires lawful { IsLawfulTool (tool self.now) }
        requires ready { ready self.now shape }
        requires rows { (y + length rows ≤ shape.height) × AllByRecursion (IsRowOf shape) rows }
        ensures made { IfOk result (λ made. rows_answer (tool self.now) shape y rows ≡ rows_list made) }
        ensures refused { IfErr result (λ fault. fault ≡ Memory) };

    /// No row of the result answers the image's end.
    ghost nothing_at_end: { (s : Self) (shape : ShapeValue) (rows : List (List ℕ))
        → ready s shape → end_answer (tool s) shape rows ≡ [] };
}
