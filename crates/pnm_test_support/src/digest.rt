//! A number that tells long texts apart.

/// What the register's lowest half byte becomes, by the polynomial 0xedb8_8320.
const STEPS: [u32; 16] = [
    0x0000_0000,
    0x1db7_1064,
    0x3b6e_20c8,
    0x26d9_30ac,
    0x76dc_4190,
    0x6b6b_51f4,
    0x4db2_6158,
    0x5005_713c,
    0xedb8_8320,
    0xf00f_9344,
    0xd6d6_a3e8,
    0xcb61_b38c,
    0x9b64_c2b0,
    0x86d3_d2d4,
    0xa00a_e278,
    0xbdbd_f21c,
];

/// CRC-32 of the bytes so far, as zlib and PNG have it.
#[derive(Clone, Copy, Drop)]
pub struct Crc32 {
    register: u32,
}

impl Crc32 {
    /// Returns the CRC-32 of no bytes.
    pub fn new() -> Crc32 {
        Crc32 { register: u32::MAX }
    }

    pub fn add(&mut self, bytes: &[u8]) {
        let mut register = self.register;
        for byte in bytes {
            register ^= u32::from(*byte);
            register = (register >> 4) ^ STEPS[(register % 16) as usize];
            register = (register >> 4) ^ STEPS[(register % 16) as usize];
        }
        self.register = register;
    }

    pub fn number(&self) -> u32 {
        !self.register
    }
}
