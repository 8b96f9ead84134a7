//! A tool at work: what it is fed, what it gives, and its refusal.

ghost use Rattle.std.specs.Prelude.{◌≡◌, ◌<◌, ◌≤◌, ◌++◌, List, length, IfSome, IfNone, OnOk, IfErr};
ghost use Rattle.std.specs.Prelude.{IsTrue, IsFalse, None};
ghost use Rattle.pnm_image.specs.declared.message.Ending.TheVariants.{More};
ghost use Rattle.pnm_image.specs.declared.message.Message.{Message as MessageValue};
ghost use Rattle.pnm_image.specs.Messages.{EndsBy};
ghost use Rattle.pnm_image.specs.Packets.{messages_in};
ghost use Rattle.pnm_tools.specs.declared.tool.Tool.{Tool as ToolValue};
ghost use Rattle.pnm_tools.specs.FusedFilters.{refusal_in, waiting_at, FilterAt, FilterBusy};
ghost use Rattle.pnm_tools.specs.Unfed.{unfed_in, HasFedNext};

use crate::fault::ToolFault;
use crate::filter::Filter;
use crate::unfed::Unfed;
use pnm_image::Packet;
use std::alloc::Global;

/// A filter of a chain, which takes nothing more once it has refused.
#[derive(Drop)]
pub enum FusedFilter<F> {
    /// It takes messages.
    AtWork(F),
    /// It has refused with this fault, and takes no more messages.
    Refused(ToolFault),
}

impl<F: Filter + Drop> FusedFilter<F> {
    /// Why the tool refused, if it did.
    pub fn fault(&self) -> Option<ToolFault>
        ensures { result ≡ refusal_in self.now }
    {
        match self {
            FusedFilter::AtWork(_) => None,
            FusedFilter::Refused(fault) => Some(*fault),
        }
    }

    /// Feeds the tool what comes next of a packet: all of it; of rows that repeat, the next copies; or its first
    /// message, if not all of them may come. Returns false if nothing is left, or if the tool has refused, so that it
    /// drops the rest. If there is no memory for a copy of rows, the tool refuses by `Memory`.
    ///
    /// After each call that returns true, call `next` until it returns `None`.
    #[inline(always)]
    pub fn feed_next(&mut self, alloc: Global, unfed: &mut Unfed) -> bool
        ensures fed { IsTrue result → HasFedNext F.at F.all_given F.stopped self.old self.new
            (unfed_in unfed.old) (unfed_in unfed.new) }
        ensures fewer { IsTrue result → length (unfed_in unfed.new) < length (unfed_in unfed.old) }
        ensures dropped { IsFalse result → (tool : ToolValue) (l g : List MessageValue)
            → FilterAt F.at F.all_given F.stopped self.old tool l g
            → (1 ≤ length (unfed_in unfed.old) → EndsBy More l)
            → FilterAt F.at F.all_given F.stopped self.new tool (l ++ unfed_in unfed.old) g }
    {
        if self.fault().is_some() {
            return false;
        }
        let Ok(next) = unfed.next(alloc) else {
            self.refuse(ToolFault::Memory);
            return false;
        };
        let Some(packet) = next else {
            return false;
        };
        match self.feed(packet) {
            Ok(()) => true,
            Err(packet) => self.feed_first(alloc, packet, unfed),
        }
    }

    /// Feeds the tool a packet. Drops the packet if the tool has refused.
    ///
    /// # Errors
    ///
    /// The packet, if it stands for several messages and not all of them may come.
    #[inline(always)]
    fn feed(&mut self, packet: Packet) -> Result<(), Packet>
        ensures fed { OnOk result ((tool : ToolValue) (l g : List MessageValue)
            → FilterAt F.at F.all_given F.stopped self.old tool l g
            → FilterBusy F.at F.stopped self.new tool (l ++ messages_in packet) g) }
        ensures back { IfErr result (λ same. (same ≡ packet) × (self.new ≡ self.old)
            × (2 ≤ length (messages_in packet))) }
    {
        let FusedFilter::AtWork(filter) = self else {
            return Ok(());
        };
        match filter.feed(packet) {
            Ok(Ok(())) => Ok(()),
            Ok(Err(fault)) => {
                self.refuse(fault);
                Ok(())
            }
            Err(packet) => Err(packet),
        }
    }

    /// Feeds the tool the first of several messages; the others are left.
    #[inline(never)]
    fn feed_first(&mut self, alloc: Global, packet: Packet, unfed: &mut Unfed) -> bool
        requires going { refusal_in self.old ≡ None }
        requires several { 2 ≤ length (messages_in packet) }
        requires apart { unfed.old.apart ≡ None }
        ensures fed { IsTrue result → HasFedNext F.at F.all_given F.stopped self.old self.new
            (messages_in packet ++ unfed_in unfed.old) (unfed_in unfed.new) }
        ensures fewer { IsTrue result
            → length (unfed_in unfed.new) < length (messages_in packet ++ unfed_in unfed.old) }
        ensures dropped { IsFalse result → (tool : ToolValue) (l g : List MessageValue)
            → FilterAt F.at F.all_given F.stopped self.old tool l g → EndsBy More l
            → FilterAt F.at F.all_given F.stopped self.new tool
            (l ++ (messages_in packet ++ unfed_in unfed.old)) g }
    {
        let Ok(first) = unfed.first_of(alloc, packet) else {
            self.refuse(ToolFault::Memory);
            return false;
        };
        match self.feed(first) {
            Ok(()) => true,
            Err(_) => unreachable!(),
        }
    }

    /// Returns the next packet that the tool gives. Returns `None` once the tool has given all, or has refused.
    #[inline(always)]
    pub fn next(&mut self) -> Option<Packet>
        ensures given { IfSome result (λ p. (tool : ToolValue) (l g : List MessageValue)
            → FilterBusy F.at F.stopped self.old tool l g
            → FilterBusy F.at F.stopped self.new tool l (g ++ messages_in p)) }
        ensures fewer { IfSome result (λ _. waiting_at F.waiting self.new < waiting_at F.waiting self.old) }
        ensures full { IfNone result ((tool : ToolValue) (l g : List MessageValue)
            → FilterBusy F.at F.stopped self.old tool l g
            → FilterAt F.at F.all_given F.stopped self.new tool l g) }
    {
        let FusedFilter::AtWork(filter) = self else {
            return None;
        };
        match filter.next() {
            Ok(answer) => answer,
            Err(fault) => {
                self.refuse(fault);
                None
            }
        }
    }

    /// Drops the tool, which has refused with this fault. A function of its own, since callers would otherwise clear
    /// room for a tool on each message.
    #[inline(never)]
    fn refuse(&mut self, fault: ToolFault)
        ensures { self.new ≡ FusedFilter.Refused fault }
    {
        *self = FusedFilter::Refused(fault);
    }
}
