//! How many images have passed.

ghost use Rattle.std.specs.Prelude.{◌≡◌};
ghost use Rattle.pnm_image.specs.Packets.{messages_in};
ghost use Rattle.pnm_serial.specs.Counts.{images_in};

use pnm_image::Packet;

/// Counts an image, if the packet ends one. At any other packet it doesn't store the count.
pub fn count_image(images: &mut u64, packet: &Packet)
    ensures { images.new ≡ images_in images.old (messages_in packet.now) }
{
    let Packet::Part(part) = packet else {
        return;
    };
    if part.parts().2 {
        *images = images.saturating_add(1);
    }
}
