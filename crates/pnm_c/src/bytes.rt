//! Memory that C frees.

ghost use Rattle.std.specs.Prelude.{◌≡◌};
ghost use Rattle.pnm_c.specs.HandedOut.{IsHandedOut};

use std::ptr;

/// Bytes that C frees.
#[repr(C)]
#[derive(Drop)]
pub struct Bytes {
    /// Where they lie, or null if there are none.
    pub at: *mut u8,
    /// How many there are.
    pub length: usize,
}

/// Hands out the block of the bytes, which C has to free.
pub fn hand_out(written: Vec<u8>) -> Bytes
    ensures { IsHandedOut written result }
{
    let mut written = written;
    if written.is_empty() {
        return Bytes {
            at: ptr::null_mut(),
            length: 0,
        };
    }
    let bytes = Bytes {
        at: written.as_mut_ptr(),
        length: written.len(),
    };
    let _ = written.leak();
    bytes
}
