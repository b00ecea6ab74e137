// The routines for C and Rust, as include/room_desk.h declares them: each calls the proved routine of a
// crate below, whose contract it repeats.
#![tactic(auto)]

mod aiff_files;
mod conversions;
mod shows;
mod wave_files;

pub use aiff_files::{
    room_desk_aiff_info, room_desk_aiff_length, room_desk_aiff_read, room_desk_aiff_write,
};
pub use conversions::{room_desk_aiff_to_wave, room_desk_wave_to_aiff};
pub use shows::{room_desk_amplitude, room_desk_render, room_desk_silent};
pub use wave_files::{
    room_desk_wave_info, room_desk_wave_length, room_desk_wave_read, room_desk_wave_write,
};
