//! How the tools of a chain are run.

ghost use Rattle.std.specs.Thread.{IsSync};
ghost use Rattle.pnm_lanes.specs.LaneLimits.{IsLaneCount};
ghost use Rattle.pnm_command_line.specs.NamedRuns.{RunRelation};
ghost use Rattle.pnm_serial.specs.Jobs.{job_of};
ghost use Rattle.pnm_serial.specs.Runs.{change};
ghost use Rattle.pnm_stages.specs.RingLimits.{IsRingCapacity};
ghost use Rattle.pnm_tools.specs.Chains.{IsChain};

use pnm_image::{BytesIn, BytesOut, Form};
use pnm_serial::{RunFault, Summary};
use pnm_tools::Tool;
use std::sync::Wait;
use std::thread::Threads;

/// What runs the tools that the words name. With it the code that handles the words is proved beside the runs.
pub trait Runner {
    /// What is known of a run, by its number of lanes, its job, its answer, and what it read and wrote.
    ghost has_run: { RunRelation };

    /// Reads the images of the reader, passes them through the tools and writes the results in the form, over rings of
    /// `capacity` packets and `lanes` lanes of each row-wise tool.
    fn run<H: AllocGlobal + Threads + Wait + Sync, R: BytesIn, W: BytesOut>(
        &self,
        rt: &H,
        reader: &mut R,
        writer: &mut W,
        tools: &[Tool],
        form: Form,
        capacity: usize,
        lanes: usize,
    ) -> Result<Summary, RunFault>
        requires shared { IsSync H.row }
        requires chain { IsChain tools.now }
        requires capacity { IsRingCapacity capacity }
        requires lanes { IsLaneCount lanes }
        ensures ran { has_run lanes (job_of tools.now form) result
            (change R.left R.failures reader.old reader.new) (change W.held W.failures writer.old writer.new) };
}
