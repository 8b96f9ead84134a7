//! The work of a run's caller while the tools work in their threads: it sends what it reads, and writes what it takes.

ghost use Rattle.std.specs.Prelude.{◌≡◌, ◌<◌, ◌⊎◌, List, IsTrue, IsFalse, IfSome, true, false};
ghost use Rattle.pnm_stages.specs.Rings.{SameReceiver};
ghost use Rattle.pnm_image.specs.declared.format.Form.{Form};
ghost use Rattle.pnm_image.specs.declared.message.Message.{Message};
ghost use Rattle.pnm_io_loop.specs.Egresses.{IsEgress, egress_is_over, HasTakenMore, HasTakenNothing};
ghost use Rattle.pnm_serial.specs.FusedSinks.{output_of};
ghost use Rattle.pnm_io_loop.specs.Ingresses.{ingress_is_over, HasSentMore};
ghost use Rattle.pnm_io_loop.specs.IoLoop.{AreOver, HaveStepped, HaveMoved, CannotSend, CannotTake};
ghost use Rattle.pnm_io_loop.specs.IoLoop.{HaveNothingToDo};

use crate::egress::Egress;
use crate::ingress::Ingress;
use pnm_image::{BytesIn, BytesOut};
use pnm_read::SpareRows;
use pnm_stages::Task;
use std::alloc::Global;
use std::sync::Wait;

/// The caller's loop, until all is sent and taken. Both of its sides are boxed, since each level of a chain's starts
/// moves the task to the next.
#[derive(Drop)]
pub struct IoLoop<'a, H, R, W> {
    pub rt: &'a H,
    pub spares: SpareRows,
    pub ingress: Box<Ingress<R>>,
    pub egress: Box<Egress<W>>,
}

impl<'a, H, R: BytesIn + Drop, W: BytesOut + Drop> IoLoop<'a, H, R, W> {
    /// Creates the loop of a caller that has `ingress` before its chain and `egress` behind it. Returns `None` if there
    /// is no memory.
    pub fn new(
        rt: &'a H,
        alloc: Global,
        ingress: Ingress<R>,
        egress: Egress<W>,
    ) -> Option<IoLoop<'a, H, R, W>>
        ensures { IfSome result (λ t. (t.ingress.value ≡ ingress) × (t.egress.value ≡ egress)) }
    {
        let ingress = Box::new(alloc, ingress).ok()?;
        let egress = Box::new(alloc, egress).ok()?;
        let spares = SpareRows::new(alloc).ok()?;
        Some(IoLoop {
            rt,
            spares,
            ingress,
            egress,
        })
    }
}

impl<'a, H: Wait, R: BytesIn + Drop, W: BytesOut + Drop> Task for IoLoop<'a, H, R, W> {
    type Output = (Box<Ingress<R>>, Box<Egress<W>>);

    ghost can_run = { λ t. Unit {0} };

    ghost run_gives = { λ t r. HaveStepped R.left R.failures R.same W.held W.failures W.same t.ingress.value
        t.egress.value r.0.value r.1.value × AreOver r.0.value r.1.value };

    fn run(self) -> (Box<Ingress<R>>, Box<Egress<W>>) {
        let IoLoop {
            rt,
            mut spares,
            mut ingress,
            mut egress,
        } = self;
        run_loop(rt, &mut ingress, &mut egress, &mut spares);
        (ingress, egress)
    }
}

/// Takes and sends until there is no more to do. New rows take the memory of those that were written.
fn run_loop<H: Wait, R: BytesIn + Drop, W: BytesOut + Drop>(
    rt: &H,
    ingress: &mut Ingress<R>,
    egress: &mut Egress<W>,
    spares: &mut SpareRows,
)
    ensures stepped { HaveStepped R.left R.failures R.same W.held W.failures W.same ingress.old egress.old ingress.new
        egress.new }
    ensures over { AreOver ingress.new egress.new }
{
    let mut takes = false;
    for _ in rt.forever() {
        if ingress.is_over() && egress.is_over() {
            return;
        }
        let takes_first = wake_before_taking(ingress, egress, takes);
        if !run_once(ingress, egress, spares, takes_first, &mut takes) {
            wait(rt, ingress, egress);
        }
    }
    unreachable!()
}

/// Waits once, if nothing can be done: at the first ring while there is more to send, since that ring is full, so that
/// the tools have work and will make room; otherwise at the last ring.
fn wait<H: Wait, R: BytesIn + Drop, W: BytesOut + Drop>(
    rt: &H,
    ingress: &mut Ingress<R>,
    egress: &Egress<W>,
)
    ensures stepped { HaveStepped R.left R.failures R.same W.held W.failures W.same ingress.old egress.now ingress.new
        egress.now }
{
    if may_send(ingress, egress) {
        ingress.wait(rt);
    } else {
        egress.wait(rt);
    }
}

/// Returns whether this step takes before it sends: it does if the last step took, or if the source might have to wait
/// for its reader. Then it first wakes the first tool for all that was sent.
fn wake_before_taking<R: BytesIn + Drop, W: BytesOut + Drop>(
    ingress: &mut Ingress<R>,
    egress: &Egress<W>,
    takes: bool,
) -> bool
    ensures stepped { HaveStepped R.left R.failures R.same W.held W.failures W.same ingress.old egress.now ingress.new
        egress.now }
{
    let takes_first = takes || ingress.would_read();
    if takes_first {
        ingress.wake_receiver();
    }
    takes_first
}

/// Does what the last step did, taking or sending, if it can, and else the other. So each look at a ring covers many
/// messages. Returns false if nothing can be done.
fn run_once<R: BytesIn + Drop, W: BytesOut + Drop>(
    ingress: &mut Ingress<R>,
    egress: &mut Egress<W>,
    spares: &mut SpareRows,
    takes_first: bool,
    takes: &mut bool,
) -> bool
    ensures stepped { HaveStepped R.left R.failures R.same W.held W.failures W.same ingress.old egress.old ingress.new
        egress.new }
    ensures moved { IsTrue result → HaveMoved ingress.old egress.old ingress.new egress.new }
    ensures idle { IsFalse result → HaveNothingToDo ingress.old egress.old }
{
    if takes_first {
        if take(egress, spares) {
            return true;
        }
        *takes = false;
    }
    send_or_take(ingress, egress, spares, takes)
}

/// Sends a message. If that can't be done, takes one, and notes in `takes` that the next step takes first.
#[inline(always)]
fn send_or_take<R: BytesIn + Drop, W: BytesOut + Drop>(
    ingress: &mut Ingress<R>,
    egress: &mut Egress<W>,
    spares: &mut SpareRows,
    takes: &mut bool,
) -> bool
    ensures stepped { HaveStepped R.left R.failures R.same W.held W.failures W.same ingress.old egress.old ingress.new
        egress.new }
    ensures moved { IsTrue result → HaveMoved ingress.old egress.old ingress.new egress.new }
    ensures idle { IsFalse result → HaveNothingToDo ingress.old egress.old }
{
    if send(ingress, egress, spares) {
        return true;
    }
    *takes = true;
    take(egress, spares)
}

/// Sends a message, if there is more to send and room for it. If the source may have to wait for its reader, flushes
/// the images that have ended first.
#[inline(always)]
fn send<R: BytesIn + Drop, W: BytesOut + Drop>(
    ingress: &mut Ingress<R>,
    egress: &mut Egress<W>,
    spares: &mut SpareRows,
) -> bool
    ensures stepped { HaveStepped R.left R.failures R.same W.held W.failures W.same ingress.old egress.old ingress.new
        egress.new }
    ensures moved { IsTrue result → HasSentMore ingress.old ingress.new }
    ensures idle { IsFalse result → CannotSend ingress.old egress.old }
    ensures taken { HasTakenNothing egress.old egress.new × (egress.new.input ≡ egress.old.input) }
{
    if !may_send(ingress, egress) {
        return false;
    }
    if ingress.would_read() {
        egress.flush_images();
    }
    ingress.try_send(spares)
}

/// Takes a message and writes it, if one is there.
#[inline(always)]
fn take<W: BytesOut + Drop>(egress: &mut Egress<W>, spares: &mut SpareRows) -> bool
    ensures receiving { (form : Form) (start : W) (before : List Message)
        → IsEgress W.held W.failures form start before egress.old
        → IsEgress W.held W.failures form start before egress.new }
    ensures ring { SameReceiver egress.old.input egress.new.input }
    ensures same_device { W.same (output_of egress.old.fused_sink) (output_of egress.new.fused_sink) }
    ensures moved { IsTrue result → HasTakenMore egress.old egress.new }
    ensures idle { IsFalse result → CannotTake egress.old × HasTakenNothing egress.old egress.new }
{
    !egress.is_over() && egress.try_receive(spares)
}

/// Returns whether there is more to send. What the source may have to wait for doesn't count while the result of an
/// image that was sent isn't written yet.
fn may_send<R: BytesIn + Drop, W: BytesOut + Drop>(ingress: &Ingress<R>, egress: &Egress<W>) -> bool
    ensures yes { IsTrue result → ingress_is_over ingress.now ≡ false }
    ensures no { IsFalse result → (ingress_is_over ingress.now ≡ true)
        ⊎ ((egress_is_over egress.now ≡ false) × (egress.now.images < ingress.now.images)) }
{
    !ingress.is_over()
        && (egress.is_over() || ingress.images() <= egress.images() || !ingress.would_read())
}
