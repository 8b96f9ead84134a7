//! Heads: the limits in figures, the order of faults, and which tuple types there are.

use super::same;
use pnm_image::HeadFault::{BadMaxval, TooLarge, ZeroSize};
use pnm_image::Kind::{Bit, Color, Gray, Pam};
use pnm_image::{Head, HeadFault, Kind, Message, Place, Shape};
use std::alloc::Global;
use std::process::Abort;
use std::test::Fail;

/// The width, the height, the depth and the maxval, and what is wrong with them.
type Numbers = (u32, u32, u32, u32, Option<HeadFault>);

const NUMBERS: &[Numbers] = &[
    (1, 1, 1, 9, None),
    (1_000_000, 1_000_000, 1, 65_535, None),
    (1_000_001, 1, 1, 9, None),
    (1, 1_000_001, 1, 9, None),
    (16_777_216, 16_777_216, 1, 65_535, None),
    (65_536, 1, 256, 1, None),
    (65_536, 16_777_216, 256, 65_535, None),
    (0, 1, 1, 9, Some(ZeroSize)),
    (1, 0, 1, 9, Some(ZeroSize)),
    (1, 1, 0, 9, Some(ZeroSize)),
    (16_777_217, 1, 1, 9, Some(TooLarge)),
    (1, 16_777_217, 1, 9, Some(TooLarge)),
    (1, 1, 257, 9, Some(TooLarge)),
    (65_537, 1, 256, 9, Some(TooLarge)),
    (8_388_609, 1, 2, 9, Some(TooLarge)),
    (1, 1, 1, 0, Some(BadMaxval)),
    (1, 1, 1, 65_536, Some(BadMaxval)),
    (0, 20_000_000, 1, 0, Some(ZeroSize)),
    (1, 20_000_000, 1, 0, Some(TooLarge)),
    (0, 1, 300, 9, Some(ZeroSize)),
];

/// The limits and the order of faults, from the numbers alone.
#[test]
fn judges_numbers_in_order(rt: HostRuntime) {
    for numbers in NUMBERS {
        judges(&rt, rt.alloc(), numbers);
    }
}

/// Asserts what is wrong with the numbers of a PAM image.
fn judges(rt: &impl Abort, alloc: Global, numbers: &Numbers) {
    let (width, height, depth, maxval, fault) = *numbers;
    let shape = Shape {
        kind: Kind::Pam,
        width,
        height,
        depth,
        maxval,
    };
    is_judged(rt, alloc, shape, fault);
}

/// Asserts that `fault` is what is wrong with the shape.
fn is_judged(rt: &impl Abort, alloc: Global, shape: Shape, fault: Option<HeadFault>) {
    assert!(rt; Head::suits(shape.kind, shape.depth, shape.maxval, &[]));
    let given = Head::new(alloc, shape, &[]).err();
    same(rt, &given, &fault, &shape);
}

/// The kind, the depth, the maxval and the tuple type of heads.
const FIELDS: &[(Kind, u32, u32, &str)] = &[
    (Bit, 1, 1, ""),
    (Gray, 1, 9, ""),
    (Color, 3, 65_535, ""),
    (Pam, 4, 300, "RGB_ALPHA of two\tlayers"),
];

/// Asserts that the head has these fields.
fn has_fields(rt: &impl Abort, head: &Head, shape: Shape, tuple_type: &[u8]) {
    same(rt, &head.shape(), &shape, &"the shape");
    same(rt, &head.tuple_type(), &tuple_type, &shape);
}

/// A new head and its copy have the fields that were asked for, and another height changes the
/// height alone.
#[test]
fn keeps_fields(rt: HostRuntime) -> Result<(), Fail> {
    for (kind, depth, maxval, tuple_type) in FIELDS {
        let shape = Shape {
            kind: *kind,
            width: 1,
            height: 1,
            depth: *depth,
            maxval: *maxval,
        };
        keeps(&rt, rt.alloc(), shape, tuple_type.as_bytes())?;
    }
    Ok(())
}

/// Asserts that a new head and its copy have the fields that were asked for.
fn keeps(rt: &impl Abort, alloc: Global, shape: Shape, tuple_type: &[u8]) -> Result<(), HeadFault> {
    assert!(rt; Head::suits(shape.kind, shape.depth, shape.maxval, tuple_type));
    let head = Head::new(alloc, shape, tuple_type)?;
    let copy = head.copy();
    has_changed(rt, head, shape, 0, tuple_type);
    has_changed(rt, copy?, shape, 16_777_216, tuple_type);
    Ok(())
}

/// Asserts that the head has these fields, and that another height changes the height alone.
fn has_changed(rt: &impl Abort, head: Head, shape: Shape, height: u32, tuple_type: &[u8]) {
    has_fields(rt, &head, shape, tuple_type);
    assert!(rt; height <= 16_777_216);
    let other = head.with_height(height);
    has_fields(rt, &other, Shape { height, ..shape }, tuple_type);
    begins_stream(rt, other);
}

/// Asserts that a stream may begin with the head.
fn begins_stream(rt: &impl Abort, head: Head) {
    assert!(rt; Place::new().accepts(&Message::Begin(head)));
}

/// A kind, a depth, a maxval and a tuple type, and whether they suit each other.
type Fields = (Kind, u32, u32, &'static [u8], bool);

const SUITS: &[Fields] = &[
    (Bit, 1, 1, b"", true),
    (Bit, 1, 2, b"", false),
    (Bit, 2, 1, b"", false),
    (Bit, 1, 1, b"A", false),
    (Gray, 1, 255, b"", true),
    (Gray, 1, 70_000, b"", true),
    (Gray, 2, 255, b"", false),
    (Gray, 1, 255, b"A", false),
    (Color, 3, 255, b"", true),
    (Color, 1, 255, b"", false),
    (Color, 4, 255, b"", false),
    (Color, 3, 255, b"RGB", false),
    (Pam, 1, 1, b"", true),
    (Pam, 300, 70_000, b"GRAYSCALE_ALPHA", true),
    (Pam, 2, 9, b"A B", true),
    (Pam, 2, 9, b"A\t\rB", true),
    (Pam, 2, 9, b"A\nB", false),
    (Pam, 2, 9, b"\n", false),
    (Pam, 2, 9, b" ", false),
    (Pam, 2, 9, b" A", false),
    (Pam, 2, 9, b"\tA", false),
    (Pam, 2, 9, b"\rA", false),
    (Pam, 2, 9, b"A ", false),
    (Pam, 2, 9, b"A\t", false),
    (Pam, 2, 9, b"A\r", false),
    (Pam, 2, 9, &[b'A'; 255], true),
    (Pam, 2, 9, &[b'A'; 256], false),
];

/// What the kinds ask, whatever the limits say.
#[test]
fn kinds_suit(rt: HostRuntime) {
    for fields in SUITS {
        suits(&rt, fields);
    }
}

/// Asserts whether the fields suit each other.
fn suits(rt: &impl Abort, fields: &Fields) {
    let (kind, depth, maxval, tuple_type, suits) = fields;
    let answer = Head::suits(*kind, *depth, *maxval, tuple_type);
    same(rt, &answer, suits, fields);
}
