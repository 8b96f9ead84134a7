//! What wakes the threads at the two ends of a ring.

use std::alloc::Global;
use std::sync::{Arc, Wait};
use std::thread::Parker;
use std::time::Duration;

/// How long a sleep may last, in milliseconds. The thread at the other end ends each sleep, so this bounds only the
/// cost of a missed wake-up.
const LONGEST_SLEEP: u64 = 400;

/// What the thread at one end of a ring sleeps on. While messages flow, only the thread at the other end wakes it. So a
/// wake-up of a thread at work is an exchange on a cache line that no other thread writes; the waker shares that line
/// with nothing. Threads whose home it is (`SenderWaker::set_home`) wake it only before they sleep themselves, and when
/// their stream ends.
#[derive(Drop)]
struct Waker {
    _before: [u64; 7],
    parker: Parker,
    _behind: [u64; 7],
}

impl Waker {
    fn new() -> Waker {
        Waker {
            _before: [0; 7],
            parker: Parker::new(),
            _behind: [0; 7],
        }
    }

    /// Sleeps until the thread is woken. Returns at once if it was woken since the last sleep.
    fn sleep<R: Wait>(&self, rt: &R) {
        self.parker
            .park_timeout(rt, Duration::from_millis(LONGEST_SLEEP));
    }

    /// Ends the thread's sleep, or keeps its next one from beginning.
    fn wake(&self) {
        self.parker.unpark();
    }
}

/// The wakers of a ring's two ends.
#[derive(Drop)]
struct Wakers {
    sender: Waker,
    receiver: Waker,
}

/// The sending end's part of its ring's wakers. When it is dropped, it wakes the thread at the receiving end, and wakes
/// it at its home, too.
pub struct SenderWaker {
    wakers: Arc<Wakers>,
    /// The wakers of the ring at whose sending end the receiver may sleep as well.
    home: Option<Arc<Wakers>>,
}

/// The receiving end's part of its ring's wakers. When it is dropped, it wakes the thread at the sending end.
pub struct ReceiverWaker(Arc<Wakers>);

/// Makes the wakers of a ring's two ends. Returns `None` if there is no memory.
pub fn new_wakers(alloc: Global) -> Option<(SenderWaker, ReceiverWaker)> {
    let wakers = Wakers {
        sender: Waker::new(),
        receiver: Waker::new(),
    };
    let sender = Arc::new(alloc, wakers).ok()?;
    let receiver = Arc::try_clone(&sender).ok()?;
    let sender = SenderWaker {
        wakers: sender,
        home: None,
    };
    Some((sender, ReceiverWaker(receiver)))
}

impl SenderWaker {
    /// Sets a home: from now on this end wakes the thread at the receiving end at `home` as well, before its own thread
    /// sleeps and when it is dropped. That thread sends on the ring of `home`. Returns false if as many share that
    /// ring's wakers as may. Then that thread has no home, not even an earlier one.
    pub fn set_home(&mut self, home: &SenderWaker) -> bool {
        self.home = Arc::try_clone(&home.wakers).ok();
        self.home.is_some()
    }

    /// Wakes the thread at the receiving end at its home, if it has one, and sleeps until that thread wakes this one.
    /// Returns at once if this one was woken since its last sleep.
    pub fn sleep<R: Wait>(&self, rt: &R) {
        self.wake_home();
        self.wakers.sender.sleep(rt);
    }

    /// Wakes the thread at the receiving end at its home, if it has one.
    pub fn wake_home(&self) {
        if let Some(home) = &self.home {
            home.sender.wake();
        }
    }

    /// Wakes the thread at the receiving end.
    pub fn wake_receiver(&self) {
        self.wakers.receiver.wake();
    }
}

impl Drop for SenderWaker {
    fn drop(self) {
        self.wake_home();
        self.wake_receiver();
        let SenderWaker { wakers: _, home: _ } = self;
    }
}

impl ReceiverWaker {
    /// Sleeps until the thread at the sending end wakes this one. Returns at once if this one was woken since its last
    /// sleep.
    pub fn sleep<R: Wait>(&self, rt: &R) {
        self.0.receiver.sleep(rt);
    }

    /// Wakes the thread at the sending end.
    pub fn wake_sender(&self) {
        self.0.sender.wake();
    }
}

impl Drop for ReceiverWaker {
    fn drop(self) {
        self.wake_sender();
        let ReceiverWaker(_) = self;
    }
}
