//! Places: which messages may come where.

use super::same;
use pnm_image::{Kind, Message, Place, Shape};
use pnm_test_support::{Part, Unmade, message};
use std::alloc::Global;
use std::fmt;
use std::process::Abort;
use std::test::Fail;

/// Two columns and one row of grays up to 9.
const SMALL: Shape = Shape {
    kind: Kind::Gray,
    width: 2,
    height: 1,
    depth: 1,
    maxval: 9,
};

/// One column and two rows of three planes, up to 300.
const TALL: Shape = Shape {
    kind: Kind::Pam,
    width: 1,
    height: 2,
    depth: 3,
    maxval: 300,
};

const SMALL_HEAD: Part<'static> = Part::Begin(Kind::Gray, 2, 1, 9);

const TALL_HEAD: Part<'static> = Part::Pam(1, 2, 3, 300, "");

/// A stream of two images, from the first message to the end, and the place after each.
const STREAM: &[(Part<'static>, Place)] = &[
    (SMALL_HEAD, Place::Inside(SMALL, 0)),
    (Part::Row(&[0, 9]), Place::Inside(SMALL, 1)),
    (Part::ImageEnd, Place::Between),
    (TALL_HEAD, Place::Inside(TALL, 0)),
    (Part::Row(&[1, 2, 300]), Place::Inside(TALL, 1)),
    (Part::Row(&[4, 5, 6]), Place::Inside(TALL, 2)),
    (Part::ImageEnd, Place::Between),
    (Part::StreamEnd, Place::After),
];

#[test]
fn passes_two_images(rt: HostRuntime) -> Result<(), Fail> {
    let mut place = Place::new();
    same(&rt, &place, &Place::Between, &"the start");
    for (part, next) in STREAM {
        passes(&rt, rt.alloc(), &mut place, *part)?;
        same(&rt, &place, next, part);
    }
    Ok(())
}

/// Makes a message of the part, asserts that it may come, and steps over it.
fn passes(rt: &impl Abort, alloc: Global, place: &mut Place, part: Part<'_>) -> Result<(), Unmade> {
    let message = message(alloc, part)?;
    steps(rt, place, &message, &part);
    Ok(())
}

/// Asserts that the message may come, and steps over it.
fn steps<P: fmt::Debug>(rt: &impl Abort, place: &mut Place, message: &Message, part: &P) {
    assert!(rt; place.accepts(message), "at {part:?}");
    place.step(message);
}

const START: Place = Place::Inside(SMALL, 0);

const END: Place = Place::Inside(SMALL, 1);

/// What may come and what may not, at each place.
const MAY_COME: &[(Place, Part<'static>, bool)] = &[
    (Place::Between, SMALL_HEAD, true),
    (Place::Between, Part::StreamEnd, true),
    (Place::Between, Part::Stop, true),
    (Place::Between, Part::Row(&[0, 9]), false),
    (Place::Between, Part::ImageEnd, false),
    (START, Part::Row(&[0, 9]), true),
    (START, Part::Stop, true),
    (START, Part::Row(&[]), false),
    (START, Part::Row(&[9]), false),
    (START, Part::Row(&[9, 9, 9]), false),
    (START, Part::Row(&[10, 0]), false),
    (START, Part::Row(&[0, 10]), false),
    (START, SMALL_HEAD, false),
    (START, Part::ImageEnd, false),
    (START, Part::StreamEnd, false),
    (END, Part::ImageEnd, true),
    (END, Part::Stop, true),
    (END, Part::Row(&[0, 9]), false),
    (END, SMALL_HEAD, false),
    (END, Part::StreamEnd, false),
    (Place::After, SMALL_HEAD, false),
    (Place::After, Part::Row(&[0, 9]), false),
    (Place::After, Part::ImageEnd, false),
    (Place::After, Part::StreamEnd, false),
    (Place::After, Part::Stop, false),
];

#[test]
fn refuses_what_may_not_come(rt: HostRuntime) -> Result<(), Fail> {
    for (place, part, accepts) in MAY_COME {
        let message = message(rt.alloc(), *part)?;
        may_come(&rt, *place, &message, *accepts);
    }
    Ok(())
}

/// Asserts whether the message may come at this place.
fn may_come(rt: &impl Abort, place: Place, message: &Message, accepts: bool) {
    same(rt, &place.accepts(message), &accepts, &(place, message));
}

/// Nothing may come once the stream has ended or was broken off.
#[test]
fn nothing_comes_after_the_end(rt: HostRuntime) {
    ends(&rt, &Message::StreamEnd);
    ends(&rt, &Message::Stop);
}

/// Asserts that nothing may come after this message.
fn ends(rt: &impl Abort, message: &Message) {
    let mut place = Place::new();
    steps(rt, &mut place, message, message);
    same(rt, &place, &Place::After, message);
    may_come(rt, place, &Message::StreamEnd, false);
    may_come(rt, place, &Message::Stop, false);
}
