// Bytes as they are read. A number that is cut between two pieces is held until it is whole.
ghost use Rattle.std.specs.Prelude.{◌≡◌, ◌⊎◌, [], ◌∷◌, ◌+◌, ◌%◌, ◌≤◌, ◌<◌, length};
ghost use Rattle.month_reader.specs.Reading.{stream_of, WithBytes, WithEnd, Reached};

use crate::reading::{Reading, nothing, with_mix, with_words};

// The bytes of a number that is not whole yet stand at the start of `held`, which zeros fill.
#[derive(Clone, Copy)]
pub struct Stream {
    pub reading: Reading,
    pub held: [u8; 4],
    pub count: usize,
}

pub fn start() -> Stream
    ensures { result ≡ stream_of [] [] }
{
    Stream {
        reading: nothing(),
        held: [0; 4],
        count: 0,
    }
}

fn with_byte(stream: Stream, byte: u8) -> Stream
    requires { Reached stream }
    ensures { WithBytes stream (byte ∷ []) result }
{
    let count = stream.count;
    let reading = stream.reading;
    let mut held = stream.held;
    held[count] = byte;
    if count < 3 {
        return Stream {
            reading,
            held,
            count: count + 1,
        };
    }
    Stream {
        reading: with_words(reading, &held),
        held: [0; 4],
        count: 0,
    }
}

// Byte by byte.
fn with_bytes(stream: Stream, piece: &[u8]) -> Stream
    requires { Reached stream }
    ensures { WithBytes stream piece.now result }
{
    let mut all = stream;
    for &byte in piece {
        all = with_byte(all, byte);
    }
    all
}

// How many bytes make the held number whole, or all that there are.
fn missing(count: usize, length: usize) -> usize
    requires { count < 4 }
    ensures { (result ≤ length) × (((count + result) % 4 ≡ 0) ⊎ (result ≡ length)) }
{
    if count == 0 {
        return 0;
    }
    if length < 4 - count {
        return length;
    }
    4 - count
}

// Whole samples, where no number is held.
fn with_whole(stream: Stream, piece: &[u8]) -> Stream
    requires stream_reachable { Reached stream }
    requires whole_samples { (length piece.now % 4 ≡ 0) × ((stream.count ≡ 0) ⊎ (length piece.now ≡ 0)) }
    ensures { WithBytes stream piece.now result }
{
    let reading = stream.reading;
    let held = stream.held;
    Stream {
        reading: with_words(reading, piece),
        held,
        count: stream.count,
    }
}

// What was read so far, with this piece.
pub fn with_piece(stream: Stream, piece: &[u8]) -> Stream
    requires { Reached stream }
    ensures { WithBytes stream piece.now result }
{
    let first = missing(stream.count, piece.len());
    let begun = with_bytes(stream, &piece[..first]);
    let last = first + (piece.len() - first) / 4 * 4;
    let whole = with_whole(begun, &piece[first..last]);
    with_bytes(whole, &piece[last..])
}

// What was read so far, with the mix at its end.
pub fn with_end(stream: Stream, channels: u64) -> Stream
    requires stream_reachable { Reached stream }
    requires at_least_one_channel { 1 ≤ channels }
    ensures { WithEnd stream channels result }
{
    let reading = stream.reading;
    Stream {
        reading: with_mix(reading, stream.count != 0, channels),
        held: [0; 4],
        count: 0,
    }
}
