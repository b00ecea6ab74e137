// How many lines, tracks and frames there can be: the sizes of arrays and tables, each said once.
#![tactic(auto)]

// Lines of a scene's tables.
pub const CLOCK_LINES: usize = 8;

pub const TRACK_LINES: usize = 32;

pub const SEND_LINES: usize = 8;

pub const ROUTE_LINES: usize = 64;

pub const SOUND_LINES: usize = 64;

pub const LISTENER_LINES: usize = 1;

pub const PLACING_LINES: usize = 32;

pub const ORDER_LINES: usize = 128;

// Tracks that a mixer has room for at once. That it is the number of lines too is so today, and no
// reason to call the two by one name.
pub const TRACK_PLACES: usize = 32;

// How deep tracks can stand below the mixer.
pub const TRACK_DEPTH: usize = 4;

// Frames of a chunk.
pub const CHUNK_FRAMES: usize = 256;

// Bytes of a scene file.
pub const FILE_BYTES: usize = 16384;

// Frames of a block.
pub const BLOCK_FRAMES: usize = 512;

// Channels of the output.
pub const CHANNELS: usize = 8;

// Frames a second.
pub const RATE: usize = 192000;
