//! The headers of images, from pbm(5), pgm(5), ppm(5) and pam(5).

ghost use Rattle.std.specs.Prelude.{◌≡◌, ◌+◌, ◌≤◌, ◌++◌, length, codes, decimal};
ghost use Rattle.pnm_image.specs.declared.limits.TheConstants.{MAX_TUPLE_TYPE_LENGTH};
ghost use Rattle.pnm_write.specs.Encoding.{magic_line, size_line, tuple_type_line, pam_text, header_text};
ghost use Rattle.pnm_write.specs.Internal.WriteCalls.{WriteCall};

use crate::write_buffer::WriteBuffer;
use itoa::Buffer;
use pnm_image::{BytesOut, DeviceFailed, Form, Format, Head, Kind, Shape, write_all};

/// Writes the header of an image with this head.
pub fn write_header<W: BytesOut>(
    writer: &mut W,
    buffer: &mut WriteBuffer,
    form: Form,
    head: &Head,
) -> Result<(), DeviceFailed>
    ensures { WriteCall W.held W.failures W.same writer.old writer.new result (header_text form head.now) }
{
    buffer.clear();
    push_header(buffer, form, head);
    write_all(writer, buffer.as_slice())
}

/// Appends the header of an image with this head; the buffer has to be empty.
fn push_header(buffer: &mut WriteBuffer, form: Form, head: &Head)
    requires { length buffer.old ≡ 0 }
    ensures { buffer.new ≡ buffer.old ++ header_text form head.now }
{
    let shape = head.shape();
    push_magic(buffer, shape.kind, form);
    match shape.kind {
        Kind::Bit => push_size(buffer, shape),
        Kind::Gray | Kind::Color => {
            push_size(buffer, shape);
            push_number(buffer, shape.maxval, b"\n");
        }
        Kind::Pam => push_fields(buffer, shape, head.tuple_type()),
    }
}

/// Appends the line of the magic.
fn push_magic(buffer: &mut WriteBuffer, kind: Kind, form: Form)
    requires { length buffer.old ≡ 0 }
    ensures line { buffer.new ≡ buffer.old ++ magic_line kind form }
    ensures count { length buffer.new ≡ 3 }
{
    buffer.push(Format { kind, form }.magic());
    buffer.push(b"\n");
}

/// Appends the lines of a PAM header after that of its magic.
fn push_fields(buffer: &mut WriteBuffer, shape: Shape, tuple_type: &[u8])
    requires magic { buffer.old ≡ codes "P7\n" }
    requires short { length tuple_type.now ≤ MAX_TUPLE_TYPE_LENGTH }
    ensures { buffer.new ≡ pam_text shape tuple_type.now }
{
    push_field(buffer, b"WIDTH ", shape.width);
    push_field(buffer, b"HEIGHT ", shape.height);
    push_field(buffer, b"DEPTH ", shape.depth);
    push_field(buffer, b"MAXVAL ", shape.maxval);
    push_tuple_type(buffer, tuple_type);
    buffer.push(b"ENDHDR\n");
}

/// Appends the line of the tuple type, if there is one.
fn push_tuple_type(buffer: &mut WriteBuffer, tuple_type: &[u8])
    requires { length buffer.old + length tuple_type.now + 10 ≤ 4096 }
    ensures line { buffer.new ≡ buffer.old ++ tuple_type_line tuple_type.now }
    ensures count { length buffer.new ≤ length buffer.old + length tuple_type.now + 10 }
{
    if tuple_type.is_empty() {
        return;
    }
    buffer.push(b"TUPLTYPE ");
    buffer.push(tuple_type);
    buffer.push(b"\n");
}

/// Appends the line of a number, with its name.
fn push_field(buffer: &mut WriteBuffer, name: &[u8], number: u32)
    requires { length buffer.old + length name.now + 11 ≤ 4096 }
    ensures line { buffer.new ≡ buffer.old ++ (name.now ++ decimal number ++ codes "\n") }
    ensures count { length buffer.new ≤ length buffer.old + length name.now + 11 }
{
    buffer.push(name);
    push_number(buffer, number, b"\n");
}

/// Appends the line of the width and the height.
fn push_size(buffer: &mut WriteBuffer, shape: Shape)
    requires { length buffer.old + 22 ≤ 4096 }
    ensures line { buffer.new ≡ buffer.old ++ size_line shape }
    ensures count { length buffer.new ≤ length buffer.old + 22 }
{
    push_number(buffer, shape.width, b" ");
    push_number(buffer, shape.height, b"\n");
}

/// Appends the number in decimal, and the bytes after it.
fn push_number(buffer: &mut WriteBuffer, number: u32, after: &[u8])
    requires { length buffer.old + length after.now + 10 ≤ 4096 }
    ensures text { buffer.new ≡ buffer.old ++ (decimal number ++ after.now) }
    ensures count { length buffer.new ≤ length buffer.old + length after.now + 10 }
{
    let mut digits = Buffer::new();
    buffer.push(digits.format(number).as_bytes());
    buffer.push(after);
}
