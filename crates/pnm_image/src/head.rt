//! Heads: the description of an image before its rows.

ghost use Rattle.std.specs.Prelude.{◌≡◌, ◌≤◌, ◌⊎◌, ◌↔◌, IsTrue, IfOk, OnOk, IfErr};
ghost use Rattle.pnm_image.specs.declared.limits.TheConstants.{MAX_SIDE};
ghost use Rattle.pnm_image.specs.Heads.{Suits, IsTupleType, IsHead, head_value, with_height, shape_fault};

use crate::characters::is_blank;
use crate::limits::MAX_TUPLE_TYPE_LENGTH;
use crate::shape::{Kind, Shape};
use std::alloc::Global;
use std::marker::Model;
use thiserror::Error;

/// Why there is no such head: the first of these faults, in this order.
#[derive(Clone, Copy, Debug, PartialEq, Eq, Error)]
pub enum HeadFault {
    /// The width, the height or the depth is 0.
    #[error("ZeroSize")]
    ZeroSize,
    /// The width, the height, the depth, or the samples of a row are beyond the limits.
    #[error("TooLarge")]
    TooLarge,
    /// The maxval is 0 or beyond the limits.
    #[error("BadMaxval")]
    BadMaxval,
    /// Memory ran out.
    #[error("Memory")]
    Memory,
}

/// The kind, the sizes, the maxval and the tuple type of an image.
#[derive(Debug, Drop)]
pub struct Head {
    shape: Shape,
    tuple_type: Vec<u8>,
}

impl Model for Head {
    ghost use Rattle.pnm_image.specs.Heads.{HeadValue, head_value, IsHead};

    ghost Value = { HeadValue };

    ghost view = { λ h. head_value h.shape h.tuple_type.items };

    ghost invariant = { λ h. IsHead (head_value h.shape h.tuple_type.items) };
}

impl Head {
    /// Returns whether the kind allows this depth, this maxval and this tuple type, whatever the limits on numbers say:
    /// `Bit` has depth 1 and maxval 1, `Gray` depth 1 and `Color` depth 3; only `Pam` has a tuple type, of at most 255
    /// bytes, without LF and with no blank, TAB or CR at its ends.
    pub fn suits(kind: Kind, depth: u32, maxval: u32, tuple_type: &[u8]) -> bool
        ensures { IsTrue result ↔ Suits kind depth maxval tuple_type.now }
    {
        match kind {
            Kind::Bit => depth == 1 && maxval == 1 && tuple_type.is_empty(),
            Kind::Gray => depth == 1 && tuple_type.is_empty(),
            Kind::Color => depth == 3 && tuple_type.is_empty(),
            Kind::Pam => is_tuple_type(tuple_type),
        }
    }

    /// Creates a head with these fields, or returns the first fault in the order of `HeadFault`.
    pub fn new(alloc: Global, shape: Shape, tuple_type: &[u8]) -> Result<Head, HeadFault>
        requires { Suits shape.kind shape.depth shape.maxval tuple_type.now }
        ensures made { IfOk result (λ head. head ≡ head_value shape tuple_type.now) }
        ensures sound { OnOk result (shape_fault shape ≡ None) }
        // The numbers are judged first: `Memory` comes only if nothing is wrong with them.
        ensures refused { IfErr result (λ fault. (shape_fault shape ≡ Some fault)
            ⊎ ((fault ≡ HeadFault.Memory) × (shape_fault shape ≡ None))) }
    {
        if let Some(fault) = shape.fault() {
            return Err(fault);
        }
        match Vec::from_slice(alloc, tuple_type) {
            Ok(tuple_type) => Ok(Head { shape, tuple_type }),
            Err(_) => Err(HeadFault::Memory),
        }
    }

    /// Returns an equal head. The only fault is `Memory`.
    pub fn copy(&self) -> Result<Head, HeadFault>
        ensures equal { IfOk result (λ head. head ≡ self.now) }
        ensures refused { IfErr result (λ fault. fault ≡ HeadFault.Memory) }
    {
        match self.tuple_type.clone() {
            Ok(tuple_type) => Ok(Head {
                shape: self.shape,
                tuple_type,
            }),
            Err(_) => Err(HeadFault::Memory),
        }
    }

    /// Returns this head with another height, which may be 0 inside a program.
    pub fn with_height(self, height: u32) -> Head
        requires { height ≤ MAX_SIDE }
        ensures { result ≡ with_height self height }
    {
        let Head { shape, tuple_type } = self;
        Head {
            shape: Shape { height, ..shape },
            tuple_type,
        }
    }

    /// Returns the kind, the sizes and the maxval.
    pub fn shape(&self) -> Shape
        ensures shape { result ≡ self.now.shape }
        ensures sound { IsHead self.now }
    {
        self.shape
    }

    /// Returns the bytes of the tuple type; there are none if the kind isn't `Pam`.
    pub fn tuple_type(&self) -> &[u8]
        ensures { result.now ≡ self.now.tuple_type }
    {
        self.tuple_type.as_slice()
    }
}

/// Returns whether a head of a PAM image may have this tuple type.
fn is_tuple_type(text: &[u8]) -> bool
    ensures { IsTrue result ↔ IsTupleType text.now }
{
    if text.len() > MAX_TUPLE_TYPE_LENGTH || text.contains(&b'\n') {
        return false;
    }
    text.is_empty() || !(is_blank(text[0]) || is_blank(text[text.len() - 1]))
}
