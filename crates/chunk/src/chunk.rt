// What mixing a chunk reads: the tables, and every value as it is around this chunk. Mixing changes
// none of it.
ghost use Rattle.std.specs.Prelude.{◌≡◌, ◌≤◌, ◌<◌};
ghost use Rattle.limits.specs.Limits.{chunk_frames_most};
ghost use Rattle.gain_table.specs.GainTable.{IsGainTable};
ghost use Rattle.chunk.specs.Chunk.{amount_at, level_amplitude, is_steady, steady_amplitude, with_factors, parts_of, LevelInRange};

use decibels::{Amplitude, Decibels};
use gain_table::GainTable;
use level_amplitudes::{Factors, Parts};
use limits::{CHUNK_FRAMES, ROUTE_LINES, SEND_LINES, SOUND_LINES, TRACK_PLACES};
use spatial::Placing;

// A parameter before this chunk and at its end.
#[derive(Clone, Copy)]
pub struct Level {
    pub before: Decibels,
    pub now: Decibels,
}

#[derive(Clone, Copy)]
pub struct ChunkTrack {
    // A line number from 1, or 0 for the mixer.
    pub parent: usize,
    pub advancing: bool,
    pub placing: Placing,
    pub volume: Level,
    pub fade: Level,
}

// Line numbers from 1, and the amplitude at the chunk's end.
#[derive(Clone, Copy)]
pub struct ChunkRoute {
    pub track: usize,
    pub send: usize,
    pub amplitude: Amplitude,
}

// What a sound still has to play: `left` frames from `start` on, of the buffer that it is from. The
// track is a line number from 1, or 0 for the main track.
#[derive(Clone, Copy)]
pub struct ChunkSound {
    pub track: usize,
    pub start: usize,
    pub left: usize,
    pub from: usize,
}

#[derive(Clone, Copy)]
pub struct Chunk {
    pub frames: usize,
    pub track_count: usize,
    pub tracks: [ChunkTrack; TRACK_PLACES],
    pub send_count: usize,
    pub sends: [Level; SEND_LINES],
    pub route_count: usize,
    pub routes: [ChunkRoute; ROUTE_LINES],
    pub sound_count: usize,
    pub sounds: [ChunkSound; SOUND_LINES],
    pub main: Level,
}

impl Level {
    // Whether the level stands still in this chunk.
    pub fn is_steady(self) -> bool
        ensures { result ≡ is_steady self }
    {
        let before = self.before;
        let now = self.now;
        before.0 == now.0
    }

    // The one amplitude of a level that stands still.
    pub fn steady_amplitude(self, table: &GainTable) -> Amplitude
        requires gain_table { IsGainTable table.now }
        requires level_in_range { LevelInRange self }
        ensures { result ≡ steady_amplitude self }
    {
        let now = self.now;
        now.as_amplitude_in(table)
    }

    // The amplitude of frame i alone.
    pub fn amplitude_at(
        self,
        i: usize,
        frames: usize,
        parts: &Parts,
        table: &GainTable,
    ) -> Amplitude
        requires gain_table { IsGainTable table.now }
        requires level_in_range { LevelInRange self }
        requires frame_in_a_chunk { (i < frames) × (frames ≤ chunk_frames_most) }
        requires parts_of_the_chunk { parts.now ≡ parts_of frames }
        ensures { result ≡ level_amplitude self (amount_at i frames) }
    {
        let before = self.before;
        let after = self.now;
        level_amplitudes::amplitude_at(before, after, parts, i, table)
    }

    // The amplitudes of a chunk's frames.
    pub fn amplitudes(self, frames: usize, parts: &Parts, table: &GainTable, factors: &mut Factors)
        requires gain_table { IsGainTable table.now }
        requires level_in_range { LevelInRange self }
        requires frames_in_a_chunk { frames ≤ chunk_frames_most }
        requires parts_of_the_chunk { parts.now ≡ parts_of frames }
        ensures { factors.new ≡ with_factors self frames factors.old }
    {
        let before = self.before;
        let after = self.now;
        level_amplitudes::amplitudes(before, after, frames, parts, table, factors);
    }
}

// How far into a chunk frame i is read: (i + 1) / n.
pub fn amount_at(i: usize, frames: usize) -> f64
    requires frame_in_range { i < frames }
    requires frames_in_a_chunk { frames ≤ chunk_frames_most }
    ensures { result ≡ amount_at i frames }
{
    ((i + 1) as f64) / (frames as f64)
}

// The parts at which the frames of a chunk are read, and zeros behind them.
pub fn parts_of(frames: usize) -> Parts
    requires { frames ≤ chunk_frames_most }
    ensures { result ≡ parts_of frames }
{
    let mut parts = [0.0f32; CHUNK_FRAMES];
    for i in 0..frames {
        parts[i] = rounding::f64_to_f32(amount_at(i, frames));
    }
    parts
}
