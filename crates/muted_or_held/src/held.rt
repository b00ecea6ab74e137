// Whether a track is held, of the numbers in their places.
ghost use Rattle.std.specs.Prelude.{◌≡◌, true, cond, suc, ◌<◌, get_or};
ghost use Rattle.laws.specs.Loop.{upto};
ghost use Rattle.scene_tables.specs.Bytes.{every};
ghost use Rattle.scene_tables.specs.Tables.{orders};
ghost use Rattle.scene_questions.specs.Questions.{lines_at};
ghost use Rattle.scene_questions.specs.Places.{stored, Low};
ghost use Rattle.noninterference.specs.Silent.{pauses_or_resumes, is_holding, held};

use crate::orders::{names_track, order_field};
use scene_tables::column::{ORDER_BLOCK, ORDER_CLOCK, ORDER_MILLIS, ORDER_WHEN};
use scene_tables::{KIND_PAUSE, KIND_RESUME, ORDERS, TABLES, ZERO};

// Whether an order pauses or resumes the track.
fn pauses_or_resumes(
    values: &[u32],
    starts: &[usize; TABLES],
    counts: &[usize; TABLES],
    track: usize,
    i: usize,
) -> bool
    requires tables_in_range { Low starts.now counts.now }
    requires order_in_table { i < get_or counts.now orders 0 }
    ensures { let ts = stored starts.now counts.now values.now in
        result ≡ pauses_or_resumes ts track i }
{
    if names_track(values, starts, counts, KIND_PAUSE, track, i) {
        return true;
    }
    names_track(values, starts, counts, KIND_RESUME, track, i)
}

// Whether an order is the pause that holds the track.
fn is_holding(
    values: &[u32],
    starts: &[usize; TABLES],
    counts: &[usize; TABLES],
    track: usize,
    i: usize,
) -> bool
    requires tables_in_range { Low starts.now counts.now }
    requires order_in_table { i < get_or counts.now orders 0 }
    ensures { let ts = stored starts.now counts.now values.now in
        result ≡ is_holding ts track i }
{
    if !names_track(values, starts, counts, KIND_PAUSE, track, i) {
        return false;
    }
    if order_field(values, starts, counts, i, ORDER_BLOCK) != ZERO {
        return false;
    }
    if order_field(values, starts, counts, i, ORDER_CLOCK) != ZERO {
        return false;
    }
    if order_field(values, starts, counts, i, ORDER_WHEN) != ZERO {
        return false;
    }
    order_field(values, starts, counts, i, ORDER_MILLIS) == ZERO
}

// How many orders pause or resume the track.
fn pauses_and_resumes(
    values: &[u32],
    starts: &[usize; TABLES],
    counts: &[usize; TABLES],
    track: usize,
) -> usize
    requires { Low starts.now counts.now }
    ensures { let ts = stored starts.now counts.now values.now in
        result ≡ upto (λ i n. cond (pauses_or_resumes ts track i) (suc n) n) (lines_at ts orders) 0 }
{
    let mut n = 0;
    for i in 0..counts[ORDERS] {
        n += usize::from(pauses_or_resumes(values, starts, counts, track, i));
    }
    n
}

// Whether an order that pauses or resumes the track is the pause that holds it.
fn may_hold(
    values: &[u32],
    starts: &[usize; TABLES],
    counts: &[usize; TABLES],
    track: usize,
    i: usize,
) -> bool
    requires tables_in_range { Low starts.now counts.now }
    requires order_in_table { i < get_or counts.now orders 0 }
    ensures { let ts = stored starts.now counts.now values.now in
        result ≡ cond (pauses_or_resumes ts track i) (is_holding ts track i) true }
{
    if pauses_or_resumes(values, starts, counts, track, i) {
        return is_holding(values, starts, counts, track, i);
    }
    true
}

fn all_may_hold(
    values: &[u32],
    starts: &[usize; TABLES],
    counts: &[usize; TABLES],
    track: usize,
) -> bool
    requires { Low starts.now counts.now }
    ensures { let ts = stored starts.now counts.now values.now in
        result ≡ every (lines_at ts orders) (λ i. cond (pauses_or_resumes ts track i) (is_holding ts track i) true) }
{
    (0..counts[ORDERS]).all(|i| may_hold(values, starts, counts, track, i))
}

// Whether a track, counted from 0, is held.
pub fn is_held(
    values: &[u32],
    starts: &[usize; TABLES],
    counts: &[usize; TABLES],
    track: usize,
) -> bool
    requires { Low starts.now counts.now }
    ensures { let ts = stored starts.now counts.now values.now in
        result ≡ held ts track }
{
    if pauses_and_resumes(values, starts, counts, track) != 1 {
        return false;
    }
    all_may_hold(values, starts, counts, track)
}
