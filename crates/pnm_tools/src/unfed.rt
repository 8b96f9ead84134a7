//! What is still to be fed of a packet.

ghost use Rattle.std.specs.Prelude.{◌≡◌, ◌≤◌, ◌++◌, [], length, IfOk, IfSome, IfNone, OnErr, None};
ghost use Rattle.pnm_image.specs.Packets.{messages_in, packet_list};
ghost use Rattle.pnm_tools.specs.Unfed.{unfed_in};

use pnm_image::Packet;
use std::alloc::{AllocError, Global};

/// What is still to be fed of a packet.
#[derive(Drop)]
pub struct Unfed {
    /// What comes next of a packet that was taken apart, since not all of its messages may come.
    pub(crate) apart: Option<Packet>,
    /// What comes then.
    pub(crate) rest: Option<Packet>,
}

impl Unfed {
    /// The whole packet.
    #[inline(always)]
    pub fn of(packet: Packet) -> Unfed
        ensures { unfed_in result ≡ messages_in packet }
    {
        Unfed {
            apart: None,
            rest: Some(packet),
        }
    }

    /// Takes what comes next: of rows that repeat, the next copies (`Packet::split_copies`).
    ///
    /// # Errors
    ///
    /// If there is no memory for the copies.
    #[inline(always)]
    pub fn next(&mut self, alloc: Global) -> Result<Option<Packet>, AllocError>
        ensures taken { IfOk result (λ next. unfed_in self.old ≡ packet_list next ++ unfed_in self.new) }
        ensures some { IfOk result (λ next. IfSome next (λ packet. 1 ≤ length (messages_in packet))) }
        ensures none { IfOk result (λ next. IfNone next (unfed_in self.old ≡ [])) }
        ensures apart { IfOk result (λ next. self.new.apart ≡ None) }
        ensures failed { OnErr result (1 ≤ length (unfed_in self.old)) }
    {
        if let Some(apart) = &self.apart {
            // No effect at run time: from this, a proof learns that there is a message.
            let _ = apart.is_several();
            return Ok(self.apart.take());
        }
        let Some(packet) = self.rest.take() else {
            return Ok(None);
        };
        let _ = packet.is_several();
        if packet.repeats() {
            return self.next_copies(alloc, packet);
        }
        Ok(Some(packet))
    }

    /// Takes the first message of several that came next; the others come then.
    ///
    /// # Errors
    ///
    /// If there is no memory for a copy of rows.
    #[inline(always)]
    pub fn first_of(&mut self, alloc: Global, packet: Packet) -> Result<Packet, AllocError>
        requires { self.old.apart ≡ None }
        ensures parts { IfOk result (λ first.
            messages_in packet ++ unfed_in self.old ≡ messages_in first ++ unfed_in self.new) }
        ensures one { IfOk result (λ first. length (messages_in first) ≡ 1) }
    {
        let (first, more) = packet.split_first(alloc)?;
        self.apart = more;
        Ok(first)
    }

    /// The next copies of a part whose rows repeat; what is left of it comes then.
    ///
    /// # Errors
    ///
    /// If there is no memory for the copies.
    #[inline(never)]
    fn next_copies(&mut self, alloc: Global, packet: Packet) -> Result<Option<Packet>, AllocError>
        ensures taken { IfOk result (λ next. messages_in packet ≡ packet_list next ++ packet_list self.new.rest) }
        ensures some { IfOk result (λ next. IfSome next (λ copies. 1 ≤ length (messages_in copies))) }
        ensures one { IfOk result (λ next. IfNone next ⊥) }
        ensures apart { self.new.apart ≡ self.old.apart }
    {
        let (next, rest) = packet.split_copies(alloc)?;
        let _ = next.is_several();
        self.rest = rest;
        Ok(Some(next))
    }
}
