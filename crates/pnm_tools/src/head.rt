//! The heads of results that several tools make.

ghost use Rattle.std.specs.Prelude.{◌≡◌, ◌⊎◌, true, false, OnOk, IfOk, IfErr, Ok, Err, ◌≤◌};
ghost use Rattle.pnm_image.specs.Heads.{IsWithinLimits, Suits, head_value, is_too_large};
ghost use Rattle.pnm_image.specs.declared.limits.TheConstants.{MAX_MAXVAL};
ghost use Rattle.pnm_tools.specs.declared.fault.ToolFault.TheVariants.{Memory, TooLarge};
ghost use Rattle.pnm_tools.specs.declared.tool.Tool.TheVariants.{Flip};
ghost use Rattle.pnm_tools.specs.Tools.{TakesHead, result_head};

use crate::fault::ToolFault;
use crate::flip::FlipWay;
use crate::tool::Tool;
use pnm_image::limits::MAX_MAXVAL;
use pnm_image::{Head, HeadFault, Shape};
use std::alloc::Global;

/// Returns the head of a result with these fields. Like the head of an image, it may have height 0.
///
/// # Errors
///
/// `TooLarge` if its width, height, depth or number of samples in a row is beyond the limits of images; otherwise
/// `Memory`, if there is no memory for the tuple type.
pub fn head_within_limits(alloc: Global, shape: Shape, tuple_type: &[u8]) -> Result<Head, ToolFault>
    requires some { (1 ≤ shape.width) × (1 ≤ shape.depth) }
    requires maxval { (1 ≤ shape.maxval) × (shape.maxval ≤ MAX_MAXVAL) }
    requires suits { Suits shape.kind shape.depth shape.maxval tuple_type.now }
    ensures made { IfOk result (λ head. (head ≡ head_value shape tuple_type.now) × (is_too_large shape ≡ false)) }
    ensures refused { IfErr result (λ fault. ((fault ≡ TooLarge) × (is_too_large shape ≡ true))
        ⊎ ((fault ≡ Memory) × (is_too_large shape ≡ false))) }
{
    // `Head::new` makes no head of height 0, so the height is changed afterwards.
    let height = shape.height;
    let shape = Shape {
        height: height.max(1),
        ..shape
    };
    match Head::new(alloc, shape, tuple_type) {
        Ok(head) => Ok(head.with_height(height)),
        Err(HeadFault::Memory) => Err(ToolFault::Memory),
        Err(_) => Err(ToolFault::TooLarge),
    }
}

/// Returns the head of the image flipped this way, as pamflip(1) has it: width and height are exchanged if columns and
/// rows are.
///
/// # Errors
///
/// `OutOfOrder` if the height is 0 and rows don't stay in their places; otherwise as `head_within_limits`.
pub fn flipped_head(alloc: Global, way: FlipWay, head: &Head) -> Result<Head, ToolFault>
    ensures made { IfOk result (λ made. result_head (Flip way) head.now ≡ Ok made) }
    ensures limits { OnOk result (IsWithinLimits head.now.shape) }
    ensures refused { IfErr result (λ fault. (result_head (Flip way) head.now ≡ Err fault)
        ⊎ ((fault ≡ Memory) × TakesHead (Flip way) head.now)) }
{
    let (transform, shape) = (way.transform(), head.shape());
    if !Tool::Flip(way).is_row_wise() && shape.height == 0 {
        return Err(ToolFault::OutOfOrder);
    }
    let transformed = if transform.exchanged {
        Shape {
            width: shape.height,
            height: shape.width,
            ..shape
        }
    } else {
        shape
    };
    head_within_limits(alloc, transformed, head.tuple_type())
}
