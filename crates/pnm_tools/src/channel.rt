//! `pamchannel`: planes of the image, in the order in which they are named, from pamchannel(1).

ghost use Rattle.std.specs.Prelude.{◌≡◌, ◌<◌, ◌↔◌, IsTrue, IfOk, IfErr, Ok};
ghost use Rattle.pnm_tools.specs.declared.fault.ToolFault.TheVariants.{Memory};
ghost use Rattle.pnm_tools.specs.declared.tool.Tool.TheVariants.{Channel};

use crate::fault::ToolFault;
use pnm_image::limits::MAX_DEPTH;
use pnm_image::{Head, Kind};
use std::marker::Model;

/// The maximum number of planes in a pick.
const MOST_PLANES: usize = MAX_DEPTH as usize;

/// The greatest number of a plane.
const LAST_PLANE: u16 = MAX_DEPTH as u16 - 1;

/// The planes to pick, by their numbers from 0, and the tuple type of the result.
#[derive(Debug, Drop)]
pub struct Planes {
    numbers: Vec<u16>,
    tuple_type: Vec<u8>,
}

impl Model for Planes {
    ghost use Rattle.pnm_tools.specs.Channel.{Picks, picks};

    ghost Value = { Picks };

    ghost view = { λ p. picks p.numbers.items p.tuple_type.items };
}

impl Planes {
    ghost use Rattle.pnm_tools.specs.Channel.{IsLawfulPick, HasPlanes};
    ghost use Rattle.pnm_tools.specs.Tools.{TakesHead, result_head};

    /// Creates a pick of the planes with these numbers, in their order, and with this tuple type.
    pub fn new(numbers: Vec<u16>, tuple_type: Vec<u8>) -> Planes
        ensures numbers { result.numbers ≡ numbers.items }
        ensures tuple_type { result.tuple_type ≡ tuple_type.items }
    {
        Planes {
            numbers,
            tuple_type,
        }
    }

    /// Returns the numbers of the planes.
    pub fn numbers(&self) -> &[u16]
        ensures { result.now ≡ self.now.numbers }
    {
        self.numbers.as_slice()
    }

    /// Returns the bytes of the tuple type.
    pub fn tuple_type(&self) -> &[u8]
        ensures { result.now ≡ self.now.tuple_type }
    {
        self.tuple_type.as_slice()
    }

    /// Copies the planes. The only fault is `Memory`.
    pub(crate) fn copy(&self) -> Result<Planes, ToolFault>
        ensures equal { IfOk result (λ planes. planes ≡ self.now) }
        ensures refused { IfErr result (λ fault. fault ≡ Memory) }
    {
        Ok(Planes {
            numbers: self.numbers.clone()?,
            tuple_type: self.tuple_type.clone()?,
        })
    }

    /// Returns true if there are 1 to 256 numbers, each from 0 to 255, and the tuple type is one of PAM.
    pub(crate) fn is_lawful(&self) -> bool
        ensures { IsTrue result ↔ IsLawfulPick self.now }
    {
        1 <= self.numbers.len()
            && self.numbers.len() <= MOST_PLANES
            && self.numbers.iter().all(|number| *number <= LAST_PLANE)
            && Head::suits(Kind::Pam, 1, 1, self.tuple_type.as_slice())
    }
}
