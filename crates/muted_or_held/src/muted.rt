// Whether a track is muted, of the numbers in their places.
ghost use Rattle.std.specs.Prelude.{◌≡◌, true, cond, not, ◌<◌, eqb, get_or};
ghost use Rattle.scene_tables.specs.Bytes.{every};
ghost use Rattle.scene_tables.specs.Tables.{natural, tracks, routes, orders, track_column, route_column, order_column, order_kind};
ghost use Rattle.scene_questions.specs.Questions.{rows_at, lines_at, cell};
ghost use Rattle.scene_questions.specs.Places.{stored, Low};
ghost use Rattle.noninterference.specs.Removed.{removed_track, names_removed};
ghost use Rattle.noninterference.specs.Silent.{silent_volume, names, muted};

use crate::below::{is_inside, parent_of};
use crate::orders::{names_track, order_field};
use scene_file::{at, natural_of};
use scene_tables::column::{ORDER_VOLUME, ROUTE_COLUMNS, ROUTE_TRACK, TRACK_COLUMNS, TRACK_VOLUME};
use scene_tables::{KIND_TRACK_VOLUME, ORDERS, ROUTES, TABLES, TRACKS, ZERO};

// -60 dB.
const SILENCE: u32 = ZERO - 60000;

fn is_silent(volume: u32) -> bool
    ensures { result ≡ silent_volume volume }
{
    volume <= SILENCE
}

// The volume of a track's line; beyond the table the lowest number.
fn volume_of(
    values: &[u32],
    starts: &[usize; TABLES],
    counts: &[usize; TABLES],
    track: usize,
) -> u32
    requires { Low starts.now counts.now }
    ensures { let ts = stored starts.now counts.now values.now in
        result ≡ cell (rows_at ts tracks) track track_column.volume }
{
    if counts[TRACKS] <= track {
        return 0;
    }
    at(values, starts[TRACKS] + track * TRACK_COLUMNS, TRACK_VOLUME)
}

// Whether an order that sets the track's volume sets it to silence.
fn order_is_silent(
    values: &[u32],
    starts: &[usize; TABLES],
    counts: &[usize; TABLES],
    track: usize,
    i: usize,
) -> bool
    requires tables_in_range { Low starts.now counts.now }
    requires order_in_table { i < get_or counts.now orders 0 }
    ensures { let ts = stored starts.now counts.now values.now in
        result ≡ cond (names ts order_kind.track_volume track i) (silent_volume (cell (rows_at ts orders) i order_column.volume)) true }
{
    if names_track(values, starts, counts, KIND_TRACK_VOLUME, track, i) {
        return is_silent(order_field(values, starts, counts, i, ORDER_VOLUME));
    }
    true
}

fn orders_are_silent(
    values: &[u32],
    starts: &[usize; TABLES],
    counts: &[usize; TABLES],
    track: usize,
) -> bool
    requires { Low starts.now counts.now }
    ensures { let ts = stored starts.now counts.now values.now in
        result ≡ every (lines_at ts orders) (λ i. cond (names ts order_kind.track_volume track i) (silent_volume (cell (rows_at ts orders) i order_column.volume)) true) }
{
    (0..counts[ORDERS]).all(|i| order_is_silent(values, starts, counts, track, i))
}

// Whether a route is of a track below the track.
fn is_below(
    values: &[u32],
    starts: &[usize; TABLES],
    counts: &[usize; TABLES],
    track: usize,
    route: usize,
) -> bool
    requires tables_in_range { Low starts.now counts.now }
    requires route_in_table { route < get_or counts.now routes 0 }
    ensures { let ts = stored starts.now counts.now values.now in
        result ≡ names_removed (removed_track ts (eqb track)) (natural (cell (rows_at ts routes) route route_column.track)) }
{
    let line = natural_of(at(values, starts[ROUTES] + route * ROUTE_COLUMNS, ROUTE_TRACK));
    let parent = parent_of(values, starts, counts, line);
    is_inside(values, starts, counts, track, parent)
}

fn none_is_below(
    values: &[u32],
    starts: &[usize; TABLES],
    counts: &[usize; TABLES],
    track: usize,
) -> bool
    requires { Low starts.now counts.now }
    ensures { let ts = stored starts.now counts.now values.now in
        result ≡ every (lines_at ts routes) (λ i. not (names_removed (removed_track ts (eqb track)) (natural (cell (rows_at ts routes) i route_column.track)))) }
{
    (0..counts[ROUTES]).all(|i| !is_below(values, starts, counts, track, i))
}

// Whether a track, counted from 0, is muted.
pub fn is_muted(
    values: &[u32],
    starts: &[usize; TABLES],
    counts: &[usize; TABLES],
    track: usize,
) -> bool
    requires { Low starts.now counts.now }
    ensures { let ts = stored starts.now counts.now values.now in
        result ≡ muted ts track }
{
    if !is_silent(volume_of(values, starts, counts, track)) {
        return false;
    }
    if !orders_are_silent(values, starts, counts, track) {
        return false;
    }
    none_is_below(values, starts, counts, track)
}
