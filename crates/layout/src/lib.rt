// What the frame layouts share: a text's bytes spread over frames, between leading and trailing fields.
#![tactic(auto)]

pub mod cut;
pub mod frames;
pub mod layout;
pub mod text_frames;
