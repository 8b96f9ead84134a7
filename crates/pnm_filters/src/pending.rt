//! What a tool at work still has to give.

ghost use Rattle.std.specs.Prelude.{◌≡◌};
ghost use Rattle.pnm_filters.specs.Pendings.{is_idle};

use pnm_image::{Head, Packet, Place, RepeatedRows};

/// What the tool still has to give for what it accepted last.
#[derive(Clone, Copy)]
pub enum Phase {
    /// Nothing is due, and the caller knows it.
    Idle,
    /// The head, if one waits, and the rows that the tool still makes.
    Rows,
    /// The head, if one waits, the rows in `ahead`, the rows that the tool still makes, and the end of the image.
    RowsAndEnd,
    /// The end of the stream.
    StreamEnd,
    /// Stop.
    Stop,
    /// Everything due was given; the next call of `next` returns `None`.
    Done,
}

/// What is due for what was accepted last, besides the rows that the tool still makes.
#[derive(Drop)]
pub struct Pending {
    pub phase: Phase,
    /// The head of the result.
    pub head: Option<Head>,
    /// Rows that the tool was asked for ahead of time, to learn whether the rows before them are the image's last.
    pub ahead: Option<RepeatedRows>,
}

impl Pending {
    ghost use Rattle.std.specs.Prelude.{◌≡◌, None};
    ghost use Rattle.pnm_filters.specs.Internal.Pendings.{LeadsOn};
    ghost use Rattle.pnm_image.specs.Packets.{messages_in};

    /// Creates a pending answer in this phase, with neither a head nor rows.
    pub fn alone(phase: Phase) -> Pending
        ensures phase { result.phase ≡ phase }
        ensures head { result.head ≡ None }
        ensures ahead { result.ahead ≡ None }
    {
        Pending {
            phase,
            head: None,
            ahead: None,
        }
    }

    /// Returns the place after the packet, or `None` if not all of its messages may come at this place. None may come
    /// before the caller knows that all was given.
    #[inline(always)]
    pub fn place_after(&self, place: Place, packet: &Packet) -> Option<Place>
        ensures { LeadsOn (is_idle self.now.phase) place (messages_in packet.now) result }
    {
        if is_idle(self.phase) {
            place.after(packet)
        } else {
            None
        }
    }
}

/// Returns true once everything due was given and the caller knows it.
fn is_idle(phase: Phase) -> bool
    ensures { result ≡ is_idle phase }
{
    matches!(phase, Phase::Idle)
}
