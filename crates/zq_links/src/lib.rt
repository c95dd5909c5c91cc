//! What goes over the links between sites: messages and the frames in them, and links that lose
//! frames, double them and change their order.
//!
//! A frame says what a site has of a heap, or holds operations, or a whole state. A control frame
//! says what is to go over the link.
//!
//! The first byte names the kind. Numbers have their highest byte first.
//!
//! | kind | frame | then |
//! |---|---|---|
//! | 1 | Have | number of heaps, 1 to 16; heap, below it; sender's site, 0 to 7; vector, eight bytes for each of these sites |
//! | 2 | Ops | how many operations, four bytes, and as many operation frames of any version |
//! | 3 | State | a state frame of any version |
//! | 4 | Have | number of heaps; heap; sender's site, 0 to 63; vector by its entries |
//! | 5 | Have | number of heaps; heap; sender's site; rule, 0 High or 1 Low; vector by its entries |
//! | 6 | Routes | reach, ask and far, eight bytes each |
//! | 7 | At | number of heaps; heap; rule; flags, bit 0 open and the others 0; turn, echo and window, eight bytes each; reach, ask and far; vector by its entries |
//! | 8 | Behind | number of heaps; heap; vector by its entries |
//! | 9 | Fetch | number of heaps; heap; a byte 0, or a byte 1 and what a stage stands at: life, eight bytes; number, four bytes; places of a key and of a member, eight bytes each; vector by its entries |
//! | 10 | Piece | life, eight bytes; number, four bytes; places of a key and of a member, eight bytes each; a state frame of version 3 |
//! | 11 | Batch | operations of one heap by differences, as `zq_batch` says |
//!
//! Kinds 1 to 5 are frames, kinds 6 to 9 are control frames, kind 10 holds a part of what kind 3
//! may, and kind 11 what kind 2 may. The rule of kinds 1 and 4 is High. Nothing follows a frame. All
//! kinds are read; kinds 2, 3 and 5 to 11 are written, with the newest versions inside. `read_frame`
//! reads kinds 1 to 5 alone. The first fault from the left is the answer.
#![tactic(auto)]

mod about;
mod batch;
mod control;
mod errors;
mod fault;
mod faulty;
mod frame;
mod frame_fault;
mod frame_laws;
mod have;
mod held_back;
mod kind;
mod link_laws;
mod message;
mod numbers;
mod ops;
mod piece;
mod piece_laws;
mod read;
mod spot;
mod step;
mod write;

pub use about::topic_of;
pub use batch::{by_differences, is_batch, read_batch_frame, read_heard, recode};
pub use control::{
    At, Behind, Control, Fetch, Resume, Routes, control_has_one_spelling, is_control, read_control,
    write_control,
};
pub use errors::NoMemory;
pub use fault::Fault;
pub use faulty::Faulty;
pub use frame::{Frame, Have};
pub use frame_fault::FrameFault;
pub use frame_laws::one_spelling;
pub use held_back::MOST_HELD;
pub use link_laws::no_frame_is_invented;
pub use message::Message;
pub use piece::{Piece, is_piece, read_piece, write_piece};
pub use piece_laws::piece_has_one_spelling;
pub use read::read_frame;
pub use spot::Spot;
pub use write::{write_frame, write_ops_frame};
