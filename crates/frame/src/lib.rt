// kira's frame.rs, and buffers of frames.
#![tactic(auto)]

mod buffer;
mod frame;

pub use buffer::{
    add_frames, add_scaled, add_to_both, add_to_three, clear, each_frame, frame_at, put_frame,
    sample_frame, scale,
};
pub use frame::Frame;
