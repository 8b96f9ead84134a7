//! Parts that tests share: devices that give and take few bytes a call, or fail; what messages are made of; and, for
//! the programs of cases, how a case is written and an answer is printed.
#![tactic(auto)]

mod cases;
mod devices;
mod digest;
mod messages;
mod parts;
mod sweep;
mod telling;
mod together;
mod writing;

pub use cases::{Solver, write_lines};
pub use devices::{Drips, FailsOnce, NeverFlushes, Recorded, Sips};
pub use messages::{
    Unmade, cut_head, cut_messages, head_of, held, messages_of, number_of, samples_of,
};
pub use parts::{Part, are_made_of, is_made_of, message};
pub use sweep::Sweep;
pub use telling::{
    width_of, write_all, write_change, write_head, write_message, write_row, write_text,
};
pub use together::{cut_into, packets_of, part_of, write_packet, write_part};
pub use writing::{cut_at, cut_number, cut_pair, cut_word, named, text_of};
