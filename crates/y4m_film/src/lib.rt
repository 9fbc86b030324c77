//! Films are read from the front: the head, and then picture by picture. Pictures are padded to whole macroblocks, and
//! cropped again where they are written.
#![tactic(auto)]

mod head;
mod lines;
mod pictures;
mod pieces;
mod rows;
mod text;
mod writing;

pub use head::read_head;
pub use pictures::{FrameFault, MOST_PICTURES, next_picture};
pub use spec_film::{FilmHead, HeadFault, InputFault};
pub use writing::{put_head, put_picture};
