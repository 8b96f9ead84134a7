//! A tool at work on the rows of an image. It gives some rows of the result at once, and the rest when the image has
//! ended. It takes and gives rows one by one or together.

ghost use Rattle.std.specs.Prelude.{ℕ, ◌≡◌, ◌++◌, [], ◌⊎◌, List, length, OnOk, IfOk, IfErr};
ghost use Rattle.std.specs.Prelude.{IfNone, Ok, Err, ◌+◌, ◌≤◌};
ghost use Rattle.std.specs.List.{AllByRecursion};
ghost use Rattle.pnm_image.specs.Places.{IsRowOf};
ghost use Rattle.pnm_image.specs.declared.shape.Shape.{Shape as ShapeValue};
ghost use Rattle.pnm_image.specs.Rows.{rows_list};
ghost use Rattle.pnm_tools.specs.Answering.{rows_answer};
ghost use Rattle.pnm_tools.specs.declared.fault.ToolFault.TheVariants.{Memory};
ghost use Rattle.pnm_tools.specs.declared.tool.Tool.{Tool as ToolValue};
ghost use Rattle.pnm_tools.specs.Tools.{IsLawfulTool, TakesHead, result_head, end_answer};

use crate::fault::ToolFault;
use pnm_image::{Head, RepeatedRows, Rows, Shape};
use std::alloc::Global;

/// A tool at work on one image after another.
pub trait ImageTool {
    /// Which tool it is.
    ghost tool: { Self → ToolValue };

    /// It is ready for the next row of an image of this shape, after these rows.
    ghost ready: { Self → ShapeValue → List (List ℕ) → Type 0 };

    /// The rows of the result that it still gives for what has come.
    ghost due: { Self → List (List ℕ) };

    /// The rows that it keeps.
    ghost kept: { Self → List (List ℕ) };

    /// Returns the head of the result of an image with this head, or the refusal. After a head, the tool is ready for
    /// the image's first row, and nothing is due.
    fn begin(&mut self, alloc: Global, head: &Head) -> Result<Head, ToolFault>
        requires { IsLawfulTool (tool self.old) }
        ensures same { tool self.new ≡ tool self.old }
        ensures head { IfOk result (λ made. result_head (tool self.old) head.now ≡ Ok made) }
        ensures ready { OnOk result (ready self.new head.now.shape []) }
        ensures none_due { OnOk result (due self.new ≡ []) }
        ensures refused { IfErr result (λ fault. (result_head (tool self.old) head.now ≡ Err fault)
            ⊎ ((fault ≡ Memory) × TakesHead (tool self.old) head.now)) };

    /// Takes rows of an image of this shape, from row `y` on. The rows of the result that answer them are then due. The
    /// only fault is `Memory`.
    fn take(&mut self, alloc: Global, shape: Shape, y: u32, rows: Rows) -> Result<(), ToolFault>
        requires lawful { IsLawfulTool (tool self.old) }
        requires rows { (y + length rows ≤ shape.height) × AllByRecursion (IsRowOf shape) rows }
        requires ready { (before : List (List ℕ)) × (length before ≡ y) × ready self.old shape before }
        ensures same { tool self.new ≡ tool self.old }
        ensures ready { (before : List (List ℕ))
            → ready self.old shape before → OnOk result (ready self.new shape (before ++ rows)) }
        ensures due { OnOk result (due self.new ≡ rows_answer (tool self.old) shape y rows) }
        ensures refused { IfErr result (λ fault. fault ≡ Memory) };

    /// Ends the image, which has this shape. What is left of the result is due behind what was due before.
    fn end(&mut self, shape: Shape)
        requires lawful { IsLawfulTool (tool self.old) }
        requires ready { (rows : List (List ℕ)) × (length rows ≡ shape.height) × ready self.old shape rows }
        ensures same { tool self.new ≡ tool self.old }
        ensures due { (rows : List (List ℕ)) → length rows ≡ shape.height → ready self.old shape rows
            → due self.new ≡ due self.old ++ end_answer (tool self.old) shape rows };

    /// Returns the next rows of the result, or `None` if none are due. The only fault is `Memory`.
    fn give(&mut self, alloc: Global) -> Result<Option<RepeatedRows>, ToolFault>
        ensures same { tool self.new ≡ tool self.old }
        ensures ready { (shape : ShapeValue) (rows : List (List ℕ))
            → ready self.old shape rows → OnOk result (ready self.new shape rows) }
        ensures due { IfOk result (λ rows. due self.old ≡ rows_list rows ++ due self.new) }
        ensures all { IfOk result (λ rows. IfNone rows (due self.new ≡ [])) }
        ensures refused { IfErr result (λ fault. fault ≡ Memory) };

    /// Drops the rows that it keeps.
    fn release(&mut self, alloc: Global)
        ensures same { tool self.new ≡ tool self.old }
        ensures kept { kept self.new ≡ [] };
}
