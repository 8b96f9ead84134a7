//! The fields of a PAM header, from pam(5), 'The layout'.

ghost use Rattle.std.specs.Prelude.{◌≡◌, [], List, ℕ};
ghost use Rattle.pnm_image.specs.Heads.{IsTupleType};
ghost use Rattle.pnm_read.specs.declared.scan_status.ScanStatus.TheVariants.{Fails};
ghost use Rattle.pnm_read.specs.declared.fault.InputFault.TheVariants.{ReadFailed};
ghost use Rattle.pnm_read.specs.Items.{lines_item};
ghost use Rattle.pnm_read.specs.Internal.Saturation.{GivesInMemory};
ghost use Rattle.pnm_read.specs.Internal.PamScanners.{IsFields, JudgesLine, SetsOnce, SetsNumber, AddsTupleType};
ghost use Rattle.pnm_read.specs.Internal.PamScanners.{shape_held};

use crate::fault::InputFault;
use crate::header::fault_of_head;
use crate::line::{Field, LineKind, number_of, split_token, trim};
use crate::scan_status::ScanStatus;
use pnm_image::limits::MAX_TUPLE_TYPE_LENGTH;
use pnm_image::{Head, Kind, Shape};
use std::alloc::Global;

/// The fields of a header that have been read.
#[derive(Drop)]
pub struct Fields {
    width: Option<u32>,
    height: Option<u32>,
    depth: Option<u32>,
    maxval: Option<u32>,
    tuple_type: Vec<u8>,
}

impl Fields {
    /// Creates the fields of a header of which no line was read.
    pub fn new(alloc: Global) -> Fields
        ensures { IsFields result [] }
    {
        Fields {
            width: None,
            height: None,
            depth: None,
            maxval: None,
            tuple_type: Vec::new(alloc),
        }
    }

    /// Returns the shape, or `None` if a number is missing.
    fn shape(&self) -> Option<Shape>
        ensures { result ≡ shape_held self.now }
    {
        Some(Shape {
            kind: Kind::Pam,
            width: self.width?,
            height: self.height?,
            depth: self.depth?,
            maxval: self.maxval?,
        })
    }

    /// Judges a line, without its LF, and sets the field that it names.
    pub fn take(&mut self, line: &[u8]) -> ScanStatus
        ensures judged { JudgesLine self.old line.now self.new result }
        ensures of_text { result ≡ Fails ReadFailed → ⊥ }
    {
        let (token, rest) = split_token(line);
        match LineKind::of(token) {
            LineKind::Nothing => ScanStatus::GoesOn,
            LineKind::Number(field) => self.set_number(field, rest),
            LineKind::TupleType => self.add_tuple_type(trim(rest)),
            LineKind::End => ScanStatus::EndsWith,
            LineKind::Unknown => ScanStatus::Fails(InputFault::BadPamLine),
        }
    }

    /// Sets the number of a field: the first token of the text.
    fn set_number(&mut self, field: Field, text: &[u8]) -> ScanStatus
        ensures { SetsNumber self.old field text.now self.new result }
    {
        let (token, _) = split_token(text);
        if token.is_empty() {
            return ScanStatus::Fails(InputFault::BadPamLine);
        }
        let Some(number) = number_of(token) else {
            return ScanStatus::Fails(InputFault::BadNumber);
        };
        match field {
            Field::Width => set_once(&mut self.width, number),
            Field::Height => set_once(&mut self.height, number),
            Field::Depth => set_once(&mut self.depth, number),
            Field::Maxval => set_once(&mut self.maxval, number),
        }
    }

    /// Joins the text to the tuple type with a blank; an empty text is left out.
    fn add_tuple_type(&mut self, text: &[u8]) -> ScanStatus
        ensures { AddsTupleType self.old text.now self.new result }
    {
        let blank: &[u8] = if self.tuple_type.is_empty() || text.is_empty() {
            b""
        } else {
            b" "
        };
        if text.len() > MAX_TUPLE_TYPE_LENGTH
            || self.tuple_type.len() + blank.len() + text.len() > MAX_TUPLE_TYPE_LENGTH
        {
            return ScanStatus::Fails(InputFault::TooLong);
        }
        if self.tuple_type.extend_from_slice(blank).is_err()
            || self.tuple_type.extend_from_slice(text).is_err()
        {
            return ScanStatus::Fails(InputFault::Memory);
        }
        ScanStatus::GoesOn
    }
}

/// Sets the number, or fails if it is set already.
fn set_once(place: &mut Option<u32>, number: u32) -> ScanStatus
    ensures { SetsOnce place.old number place.new result }
{
    if place.is_some() {
        return ScanStatus::Fails(InputFault::DuplicateField);
    }
    *place = Some(number);
    ScanStatus::GoesOn
}

/// Makes the head of these fields, or returns what is wrong with them.
pub fn head_of(alloc: Global, fields: Fields) -> Result<Head, InputFault>
    requires { IsTupleType fields.tuple_type.items }
    ensures { (lines : List (List ℕ)) → IsFields fields lines → GivesInMemory result (lines_item lines) }
{
    let Some(shape) = fields.shape() else {
        return Err(InputFault::MissingField);
    };
    Head::new(alloc, shape, &fields.tuple_type).map_err(fault_of_head)
}
