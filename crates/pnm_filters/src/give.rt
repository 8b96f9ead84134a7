//! How a tool at work gives what is due.

ghost use Rattle.std.specs.Prelude.{◌≡◌};
ghost use Rattle.pnm_filters.specs.declared.pending.Phase.TheVariants.{Rows, RowsAndEnd};
ghost use Rattle.pnm_filters.specs.Internal.Steps.{Gave};

use crate::pending::{Pending, Phase};
use pnm_image::{Packet, Part};
use pnm_tools::{ImageTool, ToolFault};
use std::alloc::Global;

/// The next packet of what is due, if something is. The only fault is `Memory`.
#[inline(always)]
pub fn give<T: ImageTool>(
    alloc: Global,
    work: &mut T,
    pending: &mut Pending,
) -> Result<Option<Packet>, ToolFault>
    ensures { Gave T.tool T.ready T.due T.kept work.old pending.old work.new pending.new result }
{
    match pending.phase {
        Phase::Idle => Ok(None),
        Phase::Rows => give_rows(alloc, work, pending),
        Phase::RowsAndEnd => give_to_end(alloc, work, pending),
        Phase::StreamEnd => {
            pending.phase = Phase::Done;
            Ok(Some(Packet::StreamEnd))
        }
        Phase::Stop => {
            pending.phase = Phase::Done;
            Ok(Some(Packet::Stop))
        }
        Phase::Done => {
            pending.phase = Phase::Idle;
            Ok(None)
        }
    }
}

/// The head that waits, and the next rows that the tool gives.
#[inline(never)]
fn give_rows<T: ImageTool>(
    alloc: Global,
    work: &mut T,
    pending: &mut Pending,
) -> Result<Option<Packet>, ToolFault>
    requires { pending.old.phase ≡ Rows }
    ensures { Gave T.tool T.ready T.due T.kept work.old pending.old work.new pending.new result }
{
    let rows = work.give(alloc)?;
    match Part::of(pending.head.take(), rows, false) {
        Some(part) => Ok(Some(Packet::Part(part))),
        None => {
            pending.phase = Phase::Idle;
            Ok(None)
        }
    }
}

/// The head that waits, the next rows that the tool gives, and the end of the image if these are the last. To see that,
/// asks the tool for those behind them.
#[inline(never)]
fn give_to_end<T: ImageTool>(
    alloc: Global,
    work: &mut T,
    pending: &mut Pending,
) -> Result<Option<Packet>, ToolFault>
    requires { pending.old.phase ≡ RowsAndEnd }
    ensures { Gave T.tool T.ready T.due T.kept work.old pending.old work.new pending.new result }
{
    let next = match pending.ahead.take() {
        Some(rows) => Some(rows),
        None => work.give(alloc)?,
    };
    let Some(rows) = next else {
        work.release(alloc);
        pending.phase = Phase::Done;
        return Ok(Some(Packet::Part(Part::new(pending.head.take(), None, true))));
    };
    let _ = rows.are_several();
    pending.ahead = work.give(alloc)?;
    let is_last = pending.ahead.is_none();
    if is_last {
        work.release(alloc);
        pending.phase = Phase::Done;
    }
    Ok(Some(Packet::Part(Part::new(pending.head.take(), Some(rows), is_last))))
}
