//! A tool that changes each sample by itself: its head rule, and what becomes of a sample.

ghost use Rattle.std.specs.Prelude.{ℕ, ◌≡◌, ◌≤◌, ◌⊎◌, IfOk, IfErr, Ok, Err};
ghost use Rattle.pnm_image.specs.declared.limits.TheConstants.{MAX_MAXVAL};
ghost use Rattle.pnm_tools.specs.declared.fault.ToolFault.TheVariants.{Memory};
ghost use Rattle.pnm_tools.specs.declared.tool.Tool.{Tool as ToolValue};
ghost use Rattle.pnm_tools.specs.SampleTools.{ChangesSamples};
ghost use Rattle.pnm_tools.specs.Samplewise.{SampleRule};
ghost use Rattle.pnm_tools.specs.Tools.{IsLawfulTool, TakesHead, result_head};

use pnm_image::Head;
use pnm_tools::ToolFault;
use std::alloc::Global;

/// A tool that changes each sample by itself. It holds its options and nothing else, since it is copied into the loops
/// over samples.
pub trait SampleTool: Copy {
    /// Which tool it is.
    ghost tool: { Self → ToolValue };

    /// What it does to the head and to each sample.
    ghost rule: { Self → SampleRule };

    /// Whether computing a sample costs so much that samples are looked up in a table, in an image that has at least as
    /// many samples as the table.
    const IS_COSTLY: bool;

    /// Returns the head of the result of an image with this head, or the refusal.
    fn head(self, alloc: Global, head: &Head) -> Result<Head, ToolFault>
        requires { IsLawfulTool (tool self) }
        ensures head { IfOk result (λ made. result_head (tool self) head.now ≡ Ok made) }
        ensures refused { IfErr result (λ fault. (result_head (tool self) head.now ≡ Err fault)
            ⊎ ((fault ≡ Memory) × TakesHead (tool self) head.now)) };

    /// Returns the maxval of the result of an image of this maxval.
    fn maxval(self, maxval: u32) -> u32
        requires lawful { IsLawfulTool (tool self) }
        requires maxval { (1 ≤ maxval) × (maxval ≤ MAX_MAXVAL) }
        ensures value { result ≡ (rule self).maxval maxval }
        ensures high { result ≤ MAX_MAXVAL };

    /// Returns what becomes of a sample of an image of this maxval.
    fn sample(self, maxval: u32, sample: u16) -> u16
        requires lawful { IsLawfulTool (tool self) }
        requires maxval { (1 ≤ maxval) × (maxval ≤ MAX_MAXVAL) }
        requires sample { sample ≤ maxval }
        ensures { result ≡ (rule self).sample maxval sample };

    /// The tool does nothing but follow its rule.
    ghost changes: { (s : Self) → ChangesSamples (tool s) (rule s) };
}

/// Copies the head of an image, for a tool that doesn't change it.
///
/// # Errors
///
/// `Memory` if there is no memory for the tuple type.
pub(crate) fn kept_head(head: &Head) -> Result<Head, ToolFault>
    ensures kept { IfOk result (λ made. made ≡ head.now) }
    ensures refused { IfErr result (λ fault. fault ≡ Memory) }
{
    match head.copy() {
        Ok(head) => Ok(head),
        Err(_) => Err(ToolFault::Memory),
    }
}
