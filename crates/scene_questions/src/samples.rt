// Questions 8 and 9, of one sample buffer.
ghost use Rattle.std.specs.Prelude.{◌≡◌, not, ◌&&◌, ◌+◌, ◌-◌, ◌*◌, ◌/◌, ◌≤◌, ◌<◌, length, get_or};
ghost use Rattle.std.specs.Float.{nan};
ghost use Rattle.laws.specs.Count.{counted};
ghost use Rattle.scene_tables.specs.Bytes.{every};
ghost use Rattle.scene_tables.specs.Tables.{table_at, width, sounds};
ghost use Rattle.scene_questions.specs.Questions.{sound_fits, sounds_fit, sample_ok, samples_ok};
ghost use Rattle.scene_questions.specs.Places.{rows_in, places_most};

use scene_file::{at, natural_of};
use scene_tables::column::{SOUND_COLUMNS, SOUND_COUNT, SOUND_FIRST, SOUND_FROM};
use std::simd::prelude::*;

// The largest sample; the least is -MOST.
const MOST: f32 = 1.0;

// Whether a sound's frames are there, if it is from this buffer.
fn sound_fits(
    values: &[u32],
    start: usize,
    lines: usize,
    from: usize,
    frames: usize,
    i: usize,
) -> bool
    requires table_in_range { start + lines * width (table_at sounds) ≤ places_most }
    requires line_in_range { i < lines }
    ensures { result ≡ sound_fits (rows_in values.now start (width (table_at sounds)) lines) from frames i }
{
    let a = start + i * SOUND_COLUMNS;
    if natural_of(at(values, a, SOUND_FROM)) != from {
        return true;
    }
    let first = natural_of(at(values, a, SOUND_FIRST));
    let count = natural_of(at(values, a, SOUND_COUNT));
    first + count <= frames
}

// Question 8, of the sounds from this buffer.
pub fn sounds_fit(values: &[u32], start: usize, lines: usize, from: usize, samples: &[f32]) -> bool
    requires { start + lines * width (table_at sounds) ≤ places_most }
    ensures { result ≡ sounds_fit (rows_in values.now start (width (table_at sounds)) lines) from samples.now }
{
    if samples.len() % 2 != 0 {
        return false;
    }
    let frames = samples.len() / 2;
    (0..lines).all(|i| sound_fits(values, start, lines, from, frames, i))
}

fn sample_ok(x: f32) -> bool
    ensures { result ≡ sample_ok x }
{
    -MOST <= x && x <= MOST
}

// Whether the four samples from a place on are all right, asked at once.
fn four_ok(samples: &[f32], at: usize) -> bool
    requires { at + 4 ≤ length samples.now }
    ensures { result ≡ sample_ok (get_or samples.now at nan) && sample_ok (get_or samples.now (at + 1) nan) && sample_ok (get_or samples.now (at + 2) nan) && sample_ok (get_or samples.now (at + 3) nan) }
{
    let x = f32x4::from_array([
        samples[at],
        samples[at + 1],
        samples[at + 2],
        samples[at + 3],
    ]);
    (f32x4::splat(-MOST).simd_le(x) & x.simd_le(f32x4::splat(MOST))).all()
}

// How many samples are refused.
fn refused(samples: &[f32]) -> usize
    ensures { result ≡ counted (λ i. not (sample_ok (get_or samples.now i nan))) (length samples.now) }
{
    let mut count = 0;
    for x in samples {
        count += usize::from(!sample_ok(*x));
    }
    count
}

// The whole fours of samples.
fn fours_ok(samples: &[f32]) -> bool
    ensures { result ≡ every (length samples.now / 4 * 4) (λ i. sample_ok (get_or samples.now i nan)) }
{
    for i in 0..samples.len() / 4 {
        if !four_ok(samples, i * 4) {
            return false;
        }
    }
    true
}

// Question 9. Comparisons of one float at a time don't vectorise, so four are asked at once. The
// refused samples of the rest are counted.
pub fn samples_ok(samples: &[f32]) -> bool
    ensures { result ≡ samples_ok samples.now }
{
    if !fours_ok(samples) {
        return false;
    }
    refused(&samples[samples.len() / 4 * 4..]) == 0
}
