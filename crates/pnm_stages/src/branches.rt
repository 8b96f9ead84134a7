//! Two branches of work at once: one in a thread of its own, the other in the caller's.

ghost use Rattle.std.specs.Prelude.{IfSome};

use crate::receiver::Receiver;
use crate::sender::Sender;
use std::snapshot::Snapshot;
use std::sync::Wait;
use std::thread;
use std::thread::{Promise, Threads};

/// Work that is done once. A thread starts with such a value, since it can't start with a closure that is a parameter.
pub trait Task {
    /// What the work returns.
    type Output;

    /// When the work may be done.
    ghost can_run: { Self → Type 0 };

    /// What is known of what the work returns.
    ghost run_gives: { Self → Self.Output → Type 0 };

    /// Does the work.
    fn run(self) -> Self::Output
        requires { can_run self }
        ensures { run_gives self result };
}

/// The promise that a thread returns what its task does.
#[derive(Drop)]
struct Gives<S>(Snapshot<S>);

impl<S: Task<Output = A>, A> Promise<A> for Gives<S> {
    ghost kept_by = { λ p r. S.run_gives p.0.value r };
}

/// Runs the first task in a thread of its own and the second in the caller's. Returns `None`, and doesn't run the
/// second, if the thread can't be started.
pub fn run_both<
    R: Threads + Wait + Sync,
    S: Task<Output = A> + Send + Drop,
    T: Task<Output = B> + Drop,
    A: Send + Drop,
    B: Drop,
>(rt: &R, first: S, second: T) -> Option<(A, B)>
    requires { S.can_run first × T.can_run second }
    ensures { IfSome result (λ r. S.run_gives first r.0 × T.run_gives second r.1) }
{
    thread::scope(
        thread::scope_env(),
        rt,
        move |scope| -> Option<(A, B)>
            requires { S.can_run first × T.can_run second }
            ensures { IfSome result (λ r. S.run_gives first r.0 × T.run_gives second r.1) }
        {
            let started = scope.spawn_with(
                Gives(Snapshot::of(&first)),
                move || -> A
                    requires { S.can_run first }
                    ensures { S.run_gives first result }
                { first.run() },
            );
            match started {
                Ok(started) => {
                    let here = second.run();
                    Some((started.join(rt), here))
                }
                // The refused task is dropped, with all that it holds.
                Err(_) => None,
            }
        },
    )
}

/// A closure as a task. It serves a function that starts itself again beside other work: a cycle of calls can't go
/// through a struct that is a task.
#[derive(Drop)]
pub struct Call<F>(pub F);

impl<A, F: FnOnce() -> A> Task for Call<F> {
    type Output = A;

    ghost can_run = { λ c. F.pre c.0 };

    ghost run_gives = { λ c r. F.post c.0 r };

    fn run(self) -> A {
        (self.0)()
    }
}

/// No work.
#[derive(Clone, Copy, Debug)]
pub struct Idle;

impl Task for Idle {
    type Output = ();

    ghost can_run = { λ _. Unit {0} };

    ghost run_gives = { λ _ _. Unit {0} };

    fn run(self) {}
}

/// Work over threads that couldn't be started: there was no memory for a ring or a list, a ring's wakers had too many
/// owners, or a thread couldn't be started.
#[derive(Drop)]
pub struct NoStart {
    /// The ends of the outer rings, if memory ran out before any start of a thread was tried; then nothing was sent or
    /// received. Otherwise `None`; then all threads that were started have ended.
    pub ends: Option<(Receiver, Sender)>,
}
