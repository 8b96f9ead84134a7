//! A tool as its callers see it: a filter of messages.

ghost use Rattle.std.specs.Prelude.{◌≡◌, ℕ, ◌<◌, ◌≤◌, List, [], ◌∷◌, ◌++◌, Bool, true, false, Option, Some, None};
ghost use Rattle.std.specs.Prelude.{OnOk, IfOk, IfErr, IfSome, IfNone, OnErr, Ok, Err, length};
ghost use Rattle.pnm_image.specs.declared.message.Message.{Message as MessageValue};
ghost use Rattle.pnm_image.specs.declared.message.Message.TheVariants.{Stop};
ghost use Rattle.pnm_tools.specs.declared.fault.ToolFault.{ToolFault as Fault};
ghost use Rattle.pnm_tools.specs.declared.fault.ToolFault.TheVariants.{Memory};
ghost use Rattle.pnm_tools.specs.declared.tool.Tool.{Tool as ToolValue};
ghost use Rattle.pnm_image.specs.declared.message.Ending.TheVariants.{More, BrokenOff};
ghost use Rattle.pnm_image.specs.Messages.{EndsBy};
ghost use Rattle.pnm_image.specs.Packets.{messages_in};
ghost use Rattle.pnm_tools.specs.Answers.{AllMayCome, Answers, AnswersInFull, JudgesAll};

use crate::fault::ToolFault;
use pnm_image::Packet;

/// A tool at work: it takes the messages of images, packet by packet, and gives the messages of their results.
///
/// After each `feed`, the caller calls `next` until it returns `None`.
/// The tool gives the result's head as soon as an image begins, and all that is left of the result once the image has
/// ended. How early it gives a row in between is open. For the end of the stream it gives the end of the stream, and
/// for Stop it gives Stop alone. It gives nothing after either.
pub trait Filter {
    /// The state of a filter for this tool that has accepted the messages of the first list and given those of the
    /// second.
    ghost at: { Self → ToolValue → List MessageValue → List MessageValue → Type 0 };

    /// `next` has returned `None` since the filter last accepted a message, or it has accepted none.
    ghost all_given: { Self → Bool };

    /// The fault that stopped the filter, if any.
    ghost stopped: { Self → Option Fault };

    /// The maximum number of messages that are still to be given.
    ghost waiting: { Self → ℕ };

    /// Takes the messages of a packet, all of them or none. If its rows repeat, makes all their copies.
    ///
    /// The inner result is the first of these faults, by which the first message is refused. The filter drops the
    /// packet, and `feed` and `next` return this fault from then on.
    ///
    /// - the earlier fault, if there was one;
    /// - `OutOfOrder` if an image of height 0 begins and the tool isn't row-wise; for a message alone also if `next`
    ///   hasn't returned `None` since the last message that was accepted, or if the message can't come at its place in
    ///   the stream;
    /// - `CutOutside` or `ChannelOutside` if the image that begins lacks the part that the tool picks;
    /// - `TooLarge` if the result of that image is beyond the limits;
    /// - `Memory`.
    ///
    /// # Errors
    ///
    /// Returns the packet, and changes nothing, if it stands for several messages and not all of them may come: before
    /// the filter has given all for what it accepted, or if one can't come at its place in the stream. The caller then
    /// feeds the first by itself.
    fn feed(&mut self, packet: Packet) -> Result<Result<(), ToolFault>, Packet>
        ensures accepted { IfOk result (λ fed. OnOk fed ((t : ToolValue) (l g : List MessageValue)
            → at self.old t l g → at self.new t (l ++ messages_in packet) g)) }
        ensures not_done { IfOk result (λ fed. OnOk fed (all_given self.new ≡ false)) }
        ensures judged { IfOk result (λ fed. stopped self.old ≡ None → (t : ToolValue) (l g : List MessageValue)
            → at self.old t l g → JudgesAll (all_given self.old) t l (messages_in packet) fed) }
        ensures stops { IfOk result (λ fed. IfErr fed (λ k. stopped self.new ≡ Some k)) }
        ensures goes_on { IfOk result (λ fed. OnOk fed ((stopped self.old ≡ None) × (stopped self.new ≡ None))) }
        ensures stays { (k : Fault) → stopped self.old ≡ Some k → result ≡ Ok (Err k) }
        ensures kept { IfErr result (λ same. (same ≡ packet) × (self.new ≡ self.old)
            × (2 ≤ length (messages_in packet))) }
        ensures back { OnErr result ((t : ToolValue) (l g : List MessageValue) → at self.old t l g
            → AllMayCome (all_given self.old) l (messages_in packet) → ⊥) };

    /// Returns the next packet of the results, or `None` once all that is due was given. After a fault, it always
    /// returns that fault. The only fault that can begin here is `Memory`, and none can begin once the end of the
    /// stream or Stop was given.
    fn next(&mut self) -> Result<Option<Packet>, ToolFault>
        ensures given { IfOk result
            (λ r. IfSome r (λ p. (t : ToolValue) (l g : List MessageValue) → at self.old t l g
            → at self.new t l (g ++ messages_in p))) }
        ensures stop_alone { IfOk result
            (λ r. IfSome r (λ p. (t : ToolValue) (l g : List MessageValue) → at self.old t l g
            → EndsBy BrokenOff l → messages_in p ≡ Stop ∷ [])) }
        ensures fewer { IfOk result
            (λ r. IfSome r (λ p. (waiting self.new < waiting self.old) × (all_given self.old ≡ false)
            × (all_given self.new ≡ false))) }
        ensures full { IfOk result
            (λ r. IfNone r
            ((all_given self.new ≡ true)
            × ((t : ToolValue) (l g : List MessageValue) → at self.old t l g
            → at self.new t l g × AnswersInFull t l g))) }
        ensures failed { stopped self.old ≡ None
            → IfErr result
            (λ k. (k ≡ Memory)
            × ((t : ToolValue) (l g : List MessageValue) → at self.old t l g → EndsBy More g)) }
        ensures stops { IfErr result (λ k. stopped self.new ≡ Some k) }
        ensures goes_on { OnOk result ((stopped self.old ≡ None) × (stopped self.new ≡ None)) }
        ensures stays { (k : Fault) → stopped self.old ≡ Some k → result ≡ Err k };

    /// What was given answers what was accepted.
    ghost at_answers: { (s : Self) (t : ToolValue) (l g : List MessageValue) → at s t l g → Answers t l g };
}
