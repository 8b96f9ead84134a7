//! Messages: one may go to another thread.

use pnm_image::{Message, Samples};
use std::alloc::{AllocError, Global};
use std::test::Fail;

/// Hands a value on, as a channel between threads does.
fn handed_on<T: Send>(value: T) -> T {
    value
}

/// Returns true if the message is a row of one sample, which is `sample`.
fn is_row_of(message: &Message, sample: u16) -> bool {
    match message {
        Message::Row(row) => row.len() == 1 && row.sample(0) == sample,
        _ => false,
    }
}

/// Returns a row of one sample.
fn row_of(alloc: Global, sample: u16) -> Result<Message, AllocError> {
    Ok(Message::Row(Samples::new(vec![in alloc; sample]?)))
}

#[test]
fn messages_go_between_threads(rt: HostRuntime) -> Result<(), Fail> {
    let message = handed_on(row_of(rt.alloc(), 7)?);
    assert!(rt; is_row_of(&message, 7), "the message is another");
    Ok(())
}
