//! `pamdepth`: the image with another maxval, from pamdepth(1).

ghost use Rattle.std.specs.Prelude.{◌≡◌, ◌≤◌, ◌⊎◌, IfOk, IfErr, Ok, Err};
ghost use Rattle.pnm_image.specs.declared.limits.TheConstants.{MAX_MAXVAL};
ghost use Rattle.pnm_tools.specs.declared.fault.ToolFault.TheVariants.{Memory};
ghost use Rattle.pnm_tools.specs.declared.tool.Tool.TheVariants.{Depth};
ghost use Rattle.pnm_tools.specs.Depth.{kind_at, type_at};
ghost use Rattle.pnm_tools.specs.Tools.{TakesHead, result_head};

use crate::sample_tool::SampleTool;
use pnm_image::{Head, Kind, Shape};
use pnm_tools::{ToolFault, head_within_limits};
use std::alloc::Global;

/// Gives images another maxval.
#[derive(Clone, Copy)]
pub struct Rescaler {
    /// The new maxval.
    pub maxval: u32,
}

impl SampleTool for Rescaler {
    ghost use Rattle.pnm_tools.specs.declared.tool.Tool.TheVariants.{Depth};
    ghost use Rattle.pnm_tools.specs.Depth.{rescaled_by};
    ghost use Rattle.pnm_tools.proofs.DepthLaws.{depth_is_samplewise};
    ghost use Rattle.pnm_tools.proofs.SamplewiseLaws.{changes_samples};

    ghost tool = { λ r. Depth r.maxval };

    ghost rule = { λ r. rescaled_by r.maxval };

    /// Each sample costs a division.
    const IS_COSTLY: bool = true;

    ghost changes = { λ r. changes_samples (depth_is_samplewise r.maxval) };

    fn head(self, alloc: Global, head: &Head) -> Result<Head, ToolFault> {
        rescaled_head(alloc, self.maxval, head)
    }

    fn maxval(self, _maxval: u32) -> u32 {
        self.maxval
    }

    /// Returns the sample nearest to the same share of the new maxval. Halves are rounded up.
    #[inline(always)]
    fn sample(self, maxval: u32, sample: u16) -> u16 {
        let (new, old, sample) = (u64::from(self.maxval), u64::from(maxval), u64::from(sample));
        ((2 * sample * new + old) / (2 * old)) as u16
    }
}

/// Returns the head of the image with this maxval, as pamdepth(1) has it. At any maxval but 1, bits become gray
/// samples, and black and white becomes grayscale.
///
/// # Errors
///
/// As `head_within_limits`.
pub fn rescaled_head(alloc: Global, maxval: u32, head: &Head) -> Result<Head, ToolFault>
    requires { (1 ≤ maxval) × (maxval ≤ MAX_MAXVAL) }
    ensures made { IfOk result (λ made. result_head (Depth maxval) head.now ≡ Ok made) }
    ensures refused { IfErr result (λ fault. (result_head (Depth maxval) head.now ≡ Err fault)
        ⊎ ((fault ≡ Memory) × TakesHead (Depth maxval) head.now)) }
{
    let shape = head.shape();
    let rescaled = Shape {
        kind: kind_at(maxval, shape.kind),
        maxval,
        ..shape
    };
    head_within_limits(alloc, rescaled, type_at(maxval, head.tuple_type()))
}

/// Returns the kind at this maxval: bits become gray samples at any maxval but 1.
fn kind_at(maxval: u32, kind: Kind) -> Kind
    ensures { result ≡ kind_at maxval kind }
{
    match kind {
        Kind::Bit if maxval != 1 => Kind::Gray,
        kind => kind,
    }
}

/// Returns the tuple type at this maxval: black and white becomes grayscale at any maxval but 1.
fn type_at(maxval: u32, tuple_type: &[u8]) -> &[u8]
    ensures { result.now ≡ type_at maxval tuple_type.now }
{
    if maxval == 1 {
        tuple_type
    } else if tuple_type == b"BLACKANDWHITE".as_slice() {
        b"GRAYSCALE"
    } else if tuple_type == b"BLACKANDWHITE_ALPHA".as_slice() {
        b"GRAYSCALE_ALPHA"
    } else {
        tuple_type
    }
}
