//! Whether the heads that the lanes give for an image agree, and which head that image has.

ghost use Rattle.std.specs.Prelude.{◌≡◌, ◌↔◌, ℕ, ◌≤◌, ◌<◌, [], ◌∷◌, length, IsTrue, IfSome, IfNone, sum};
ghost use Rattle.pnm_tools.specs.Dealing.{dealt_head, dealt_height};
ghost use Rattle.pnm_image.specs.Completion.{IsPrefixOf};
ghost use Rattle.pnm_image.specs.Heads.{HeadValue, IsHead, with_height};
ghost use Rattle.pnm_image.specs.declared.message.Message.TheVariants.{Begin};
ghost use Rattle.pnm_lanes.specs.Gathers.{at_lane};
ghost use Rattle.pnm_lanes.specs.Internal.GatherParts.{AreDealtHeads, AreDealtHeights};
ghost use Rattle.pnm_lanes.specs.Internal.HeldMessages.{in_held};

use crate::dealing::dealt_height;
use crate::held::Held;
use crate::lane::MAX_LANES;
use pnm_image::limits::MAX_SIDE;
use pnm_image::{Head, Shape};

/// Takes the heads of all lanes, and returns that of the image whose rows were dealt to them. Returns `None` if there
/// is no such image.
pub fn take_heads(held: &mut [Held]) -> Option<Head>
    requires some { 1 ≤ length held.old }
    requires few { length held.old ≤ MAX_LANES }
    ensures taken { IfSome result (λ head. (lane : ℕ) → lane < length held.old → at_lane in_held held.old lane
        ≡ Begin (dealt_head lane (length held.old) head) ∷ at_lane in_held held.new lane) }
    ensures none { IfNone result ((head : HeadValue) → IsHead head
        → AreDealtHeads (length held.old) head (at_lane in_held held.old) → ⊥) }
    ensures as_many { length held.new ≡ length held.old }
{
    let first = held[0].take_head()?;
    let mut heights = [0; MAX_LANES];
    heights[0] = first.shape().height;
    for lane in 1..held.len() {
        heights[lane] = take_alike(&mut held[lane], &first)?;
    }
    let height = whole_height(&heights[..held.len()])?;
    Some(first.with_height(height))
}

/// Takes the head of a lane, and returns its height if it is like the first lane's head.
fn take_alike(held: &mut Held, first: &Head) -> Option<u32>
    ensures alike { IfSome result (λ height.
        in_held held.old ≡ Begin (with_height first.now height) ∷ in_held held.new) }
    ensures not { IfNone result ((height : ℕ)
        → IsPrefixOf (Begin (with_height first.now height) ∷ []) (in_held held.old) → ⊥) }
{
    let head = held.take_head()?;
    if !are_heads_alike(first, &head) {
        return None;
    }
    Some(head.shape().height)
}

/// Whether the two heads differ at most in the height.
fn are_heads_alike(first: &Head, other: &Head) -> bool
    ensures { IsTrue result ↔ (other.now ≡ with_height first.now other.now.shape.height) }
{
    let height = other.shape().height;
    other.shape()
        == Shape {
            height,
            ..first.shape()
        }
        && other.tuple_type() == first.tuple_type()
}

/// The height of the image whose parts in the lanes have these heights. Returns `None` if no height within the limits
/// has such parts.
fn whole_height(heights: &[u32]) -> Option<u32>
    requires some { 1 ≤ length heights.now }
    requires few { length heights.now ≤ MAX_LANES }
    ensures found { IfSome result (λ height. (height ≤ MAX_SIDE) × AreDealtHeights heights.now height) }
    ensures none { IfNone result ((height : ℕ) → height ≤ MAX_SIDE → AreDealtHeights heights.now height → ⊥) }
{
    let height = sum_of(heights)?;
    for (lane, part) in heights.iter().enumerate() {
        if *part != dealt_height(height, lane as u32, heights.len() as u32) {
            return None;
        }
    }
    Some(height)
}

/// The sum of the heights, if it is within the limits.
fn sum_of(heights: &[u32]) -> Option<u32>
    requires { length heights.now ≤ MAX_LANES }
    ensures found { IfSome result (λ height. (height ≤ MAX_SIDE) × (height ≡ sum heights.now)) }
    ensures none { IfNone result (MAX_SIDE < sum heights.now) }
{
    let mut sum: u64 = 0;
    for height in heights {
        sum += u64::from(*height);
    }
    if sum > u64::from(MAX_SIDE) {
        return None;
    }
    Some(sum as u32)
}
