//! What a run wrote.

ghost use Rattle.std.specs.Prelude.{◌≡◌};
ghost use Rattle.pnm_image.specs.Packets.{messages_in};
ghost use Rattle.pnm_image.specs.Rows.{row_messages, rows_list};
ghost use Rattle.pnm_serial.specs.Counts.{images_in, rows_in};

use pnm_image::{Packet, RepeatedRows};

/// The images and the rows that a run wrote. Each count stays at `u64::MAX` once there.
#[derive(Clone, Copy, Debug, PartialEq, Eq)]
pub struct Summary {
    /// Whole images.
    pub images: u64,
    /// Rows.
    pub rows: u64,
}

impl Summary {
    /// Counts the messages of a packet that was written.
    pub fn count(&mut self, packet: &Packet)
        ensures images { self.new.images ≡ images_in self.old.images (messages_in packet.now) }
        ensures rows { self.new.rows ≡ rows_in self.old.rows (messages_in packet.now) }
    {
        let Packet::Part(part) = packet else {
            return;
        };
        let (_, rows, ends_image) = part.parts();
        self.count_rows(rows);
        if ends_image {
            self.images = self.images.saturating_add(1);
        }
    }

    /// Counts rows that were written, if there are any.
    fn count_rows(&mut self, rows: &Option<RepeatedRows>)
        ensures images { self.new.images ≡ self.old.images }
        ensures rows { self.new.rows ≡ rows_in self.old.rows (row_messages (rows_list rows.now)) }
    {
        let Some(rows) = rows else {
            return;
        };
        let (held, times) = rows.parts();
        let count = u64::from(held.count()) * u64::from(times);
        self.rows = self.rows.saturating_add(count);
    }
}
