//! Laws of the bytes of messages. Each is about the definitions alone, as the contract of a function that does nothing.

ghost use Rattle.pnm_write.specs.EncodingLaws.{BytesAreTheEncoding, MessagesAddTheirBytes};
ghost use Rattle.pnm_write.specs.EncodingLaws.{RefusedStreamsAreOfImages, PlainRowsHaveOneText};

/// The bytes of a stream's messages are the encoding of its images.
pub fn bytes_are_the_encoding()
    ensures { BytesAreTheEncoding }
{}

/// One message more adds its own bytes to those of the messages before it.
pub fn messages_add_their_bytes()
    ensures { MessagesAddTheirBytes }
{}

/// A form refuses a message of a stream for the same reason for which it can't hold the stream's images.
pub fn refused_streams_are_of_images()
    ensures { RefusedStreamsAreOfImages }
{}

/// The text of a plain row is that of its samples in lines as long as they can be, and no other
/// text is.
pub fn plain_rows_have_one_text()
    ensures { PlainRowsHaveOneText }
{}
