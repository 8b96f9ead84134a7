//! `pnminvert`: black becomes white and white black, from pnminvert(1).

use crate::sample_tool::{SampleTool, kept_head};
use pnm_image::Head;
use pnm_tools::ToolFault;
use std::alloc::Global;

/// Inverts images: subtracts each sample from the maxval.
#[derive(Clone, Copy)]
pub struct Inverter;

impl SampleTool for Inverter {
    ghost use Rattle.pnm_tools.specs.declared.tool.Tool.TheVariants.{Invert};
    ghost use Rattle.pnm_tools.specs.Invert.{inverting};
    ghost use Rattle.pnm_tools.proofs.InvertLaws.{invert_is_samplewise};
    ghost use Rattle.pnm_tools.proofs.SamplewiseLaws.{changes_samples};

    ghost tool = { λ _. Invert };

    ghost rule = { λ _. inverting };

    const IS_COSTLY: bool = false;

    ghost changes = { λ _. changes_samples invert_is_samplewise };

    #[tactic(auto, using(pnm_tools::proofs::InvertLaws::inverted_head_stays))]
    fn head(self, _alloc: Global, head: &Head) -> Result<Head, ToolFault> {
        kept_head(head)
    }

    fn maxval(self, maxval: u32) -> u32 {
        maxval
    }

    #[inline(always)]
    fn sample(self, maxval: u32, sample: u16) -> u16 {
        maxval as u16 - sample
    }
}
