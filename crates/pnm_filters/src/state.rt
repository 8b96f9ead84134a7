//! A tool at work on a stream: its place in the stream, what is due, and the fault that stays.

ghost use Rattle.std.specs.Prelude.{◌≡◌, None, [], IfErr};
ghost use Rattle.pnm_filters.specs.Pendings.{is_all_given};
ghost use Rattle.pnm_filters.specs.declared.pending.Phase.TheVariants.{Idle};
ghost use Rattle.pnm_tools.specs.Tools.{IsLawfulTool};

use crate::give::give;
use crate::pending::{Pending, Phase};
use crate::take::take;
use pnm_image::{Packet, Place};
use pnm_tools::{Filter, ImageTool, ToolFault};
use std::alloc::Global;
use std::marker::Model;

/// A tool at work on a stream. It drops what it keeps of an image once it has given the image's end, when the stream is
/// broken off, and at a fault.
#[derive(Drop)]
pub struct State<T: ImageTool> {
    alloc: Global,
    work: T,
    place: Place,
    pending: Pending,
    fault: Option<ToolFault>,
}

impl<T: ImageTool> Model for State<T> {
    ghost use Rattle.pnm_filters.specs.States.{StateValue};
    ghost use Rattle.pnm_filters.specs.Internal.States.{state_value, IsSoundState};
    ghost use Rattle.pnm_tools.specs.Tools.{IsLawfulTool};

    ghost Value = { StateValue T };

    ghost view = { λ s. state_value s.work s.place s.pending s.fault };

    ghost invariant = { λ s. IsLawfulTool (T.tool s.work)
        × IsSoundState T.ready T.due T.kept s.work s.place s.pending s.fault };
}

impl<T: ImageTool> Filter for State<T> {
    ghost use Rattle.std.specs.Prelude.{length};
    ghost use Rattle.pnm_filters.specs.Pendings.{is_all_given, waiting_in};
    ghost use Rattle.pnm_filters.specs.States.{IsAt};

    ghost at = { IsAt T.tool T.ready T.due T.kept };

    ghost all_given = { λ s. is_all_given s.pending };

    ghost stopped = { λ s. s.fault };

    ghost waiting = { λ s. length (waiting_in s.pending (T.due s.work)) };

    ghost at_answers = { λ s tool accepted given at. at.answers };

    #[inline(always)]
    fn feed(&mut self, packet: Packet) -> Result<Result<(), ToolFault>, Packet> {
        if let Some(fault) = self.fault {
            return Ok(Err(fault));
        }
        let fault = match self.pending.place_after(self.place, &packet) {
            Some(after) => match take(self.alloc, &mut self.work, self.place, packet) {
                Ok(pending) => {
                    self.place = after;
                    self.pending = pending;
                    return Ok(Ok(()));
                }
                Err(fault) => fault,
            },
            None if packet.is_several() => return Err(packet),
            None => ToolFault::OutOfOrder,
        };
        self.work.release(self.alloc);
        self.fault = Some(fault);
        Ok(Err(fault))
    }

    #[inline(always)]
    fn next(&mut self) -> Result<Option<Packet>, ToolFault> {
        if let Some(fault) = self.fault {
            return Err(fault);
        }
        match give(self.alloc, &mut self.work, &mut self.pending) {
            Ok(given) => Ok(given),
            Err(fault) => {
                self.work.release(self.alloc);
                self.fault = Some(fault);
                Err(fault)
            }
        }
    }
}

impl<T: ImageTool> State<T> {
    /// Creates the state before the first message.
    pub fn new(alloc: Global, work: T) -> State<T>
        requires lawful { IsLawfulTool (T.tool work) }
        requires kept { T.kept work ≡ [] }
        ensures work { result.work ≡ work }
        ensures place { result.place ≡ Place.Between }
        ensures pending { result.pending.phase ≡ Idle }
        ensures fault { result.fault ≡ None }
    {
        State {
            alloc,
            work,
            place: Place::new(),
            pending: Pending::alone(Phase::Idle),
            fault: None,
        }
    }
}
