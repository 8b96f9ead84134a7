//! The seven formats and their magics.

use super::same;
use pnm_image::{Form, Format, Kind};
use std::process::Abort;

/// The second byte of each magic, the magic, and what it names, from the manual pages.
const MAGICS: &[(u8, &[u8], Kind, Form)] = &[
    (b'1', b"P1", Kind::Bit, Form::Plain),
    (b'2', b"P2", Kind::Gray, Form::Plain),
    (b'3', b"P3", Kind::Color, Form::Plain),
    (b'4', b"P4", Kind::Bit, Form::Raw),
    (b'5', b"P5", Kind::Gray, Form::Raw),
    (b'6', b"P6", Kind::Color, Form::Raw),
    (b'7', b"P7", Kind::Pam, Form::Raw),
];

#[test]
fn magics_name_formats(rt: HostRuntime) {
    for (byte, magic, kind, form) in MAGICS {
        let (kind, form) = (*kind, *form);
        names(&rt, *byte, magic, Format { kind, form });
    }
}

/// Asserts that the magic, whose second byte is `byte`, names the format.
fn names(rt: &impl Abort, byte: u8, magic: &[u8], format: Format) {
    same(rt, &Format::of(byte), &Some(format), &magic);
    same(rt, &format.magic(), &magic, &magic);
    let is_plain = format.form == Form::Plain;
    same(rt, &format.is_plain(), &is_plain, &magic);
}

#[test]
fn other_bytes_name_none(rt: HostRuntime) {
    for byte in &[0, b'0', b'8', b'P', 255] {
        same(&rt, &Format::of(*byte), &None, byte);
    }
}
