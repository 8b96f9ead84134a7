//! Want of memory in a source that gives an image at once, or some of its rows together. `scripts/refused.py tests`
//! refuses each allocation of these tests in turn.

use super::rows_memory::are_wanted;
use super::{holds, same};
use pnm_image::{BytesIn, Device, Kind};
use pnm_read::{InputFault, Source, SpareRows};
use pnm_test_support::Part;
use std::alloc::Global;
use std::process::Abort;

const TEXT: &[u8] = b"P5\n2 3\n9\n\x01\x02\x03\x04\x05\x06";

/// The messages of the text.
const PARTS: &[Part<'static>] = &[
    Part::Begin(Kind::Gray, 2, 3, 9),
    Part::Row(&[1, 2]),
    Part::Row(&[3, 4]),
    Part::Row(&[5, 6]),
    Part::ImageEnd,
    Part::StreamEnd,
];

/// The plain form of the image. Its rows come together, and the last one with the image's end.
const PLAIN: &[u8] = b"P2\n2 3\n9\n1 2\n3 4\n5 6\n";

/// How many packets the parts come in: the image and the end of the stream.
const AT_ONCE: usize = 2;

/// How many packets those of the plain image come in: the head, two rows, the last one, and the end of the stream.
const IN_PARTS: usize = 4;

/// Asserts that the source gives the parts, or answers `Memory` in the place of those that are left. Returns how many
/// packets it has given.
fn gives_parts<R: BytesIn>(rt: &impl Abort, alloc: Global, source: &mut Source<R>) -> usize {
    let mut spares = SpareRows::none(alloc);
    let mut given = 0;
    for packets in 0..PARTS.len() {
        if given == PARTS.len() {
            return packets;
        }
        match source.next(&mut spares) {
            Ok(Some(packet)) => are_wanted(rt, &packet, PARTS, &mut given),
            Ok(None) => holds(rt, false, &"an end", &"the next part", &given),
            Err(fault) => {
                same(rt, &fault, &InputFault::Memory, &given);
                return packets;
            }
        }
    }
    same(rt, &given, &PARTS.len(), &"the parts");
    PARTS.len()
}

/// If there is no memory for what comes next, the answer is `Memory`.
#[test]
fn gives_rows_or_runs_out(rt: HostRuntime) {
    for text in [TEXT, PLAIN] {
        if let Ok(mut source) = Source::new(rt.alloc(), Device::new(text)) {
            let _ = gives_parts(&rt, rt.alloc(), &mut source);
        }
    }
}

/// If nothing is refused, the image comes at once, and of the plain one the rows that are held.
#[test]
fn gives_rows_with_memory(rt: HostRuntime) {
    for (text, wanted) in [(TEXT, AT_ONCE), (PLAIN, IN_PARTS)] {
        let mut source = Source::new(rt.alloc(), Device::new(text)).expect(&rt, "a source");
        let packets = gives_parts(&rt, rt.alloc(), &mut source);
        same(&rt, &packets, &wanted, &"packets");
    }
}
