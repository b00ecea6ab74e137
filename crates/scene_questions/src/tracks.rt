// Questions 6 and 7, of the numbers in their places.
ghost use Rattle.std.specs.Prelude.{◌≡◌, ◌+◌, ◌*◌, ◌≤◌, ◌<◌, eqb};
ghost use Rattle.limits.specs.Limits.{track_depth};
ghost use Rattle.scene_tables.specs.Tables.{table_at, width, tracks, routes, placings, placing_column};
ghost use Rattle.scene_questions.specs.Questions.{cell, parent_of, within_depth, depths_fit, same_pair, new_pair, routes_fit, new_placing, placings_fit};
ghost use Rattle.scene_questions.specs.Places.{rows_in, places_most};

use limits::TRACK_DEPTH;
use scene_file::{at, natural_of};
use scene_tables::column::{
    PLACING_COLUMNS, PLACING_TRACK, ROUTE_COLUMNS, ROUTE_SEND, ROUTE_TRACK, TRACK_COLUMNS,
    TRACK_PARENT,
};

// The parent of a track line; lines count from 1, and 0 is the mixer.
pub fn parent_of(values: &[u32], start: usize, lines: usize, line: usize) -> usize
    requires { start + lines * width (table_at tracks) ≤ places_most }
    ensures { result ≡ parent_of (rows_in values.now start (width (table_at tracks)) lines) line }
{
    if line == 0 {
        return 0;
    }
    if lines < line {
        return 0;
    }
    natural_of(at(values, start + (line - 1) * TRACK_COLUMNS, TRACK_PARENT))
}

// Whether a track stands at most as deep as tracks may.
fn within_depth(values: &[u32], start: usize, lines: usize, track: usize) -> bool
    requires { start + lines * width (table_at tracks) ≤ places_most }
    ensures { result ≡ within_depth track_depth (rows_in values.now start (width (table_at tracks)) lines) track }
{
    let mut line = track;
    for _ in 0..TRACK_DEPTH {
        if line == 0 {
            return true;
        }
        line = parent_of(values, start, lines, line);
    }
    line == 0
}

// Question 6.
pub fn depths_fit(values: &[u32], start: usize, lines: usize) -> bool
    requires { start + lines * width (table_at tracks) ≤ places_most }
    ensures { result ≡ depths_fit (rows_in values.now start (width (table_at tracks)) lines) }
{
    (0..lines).all(|i| within_depth(values, start, lines, i + 1))
}

// Whether two lines route the same pair.
fn same_pair(values: &[u32], start: usize, lines: usize, i: usize, k: usize) -> bool
    requires table_in_range { start + lines * width (table_at routes) ≤ places_most }
    requires line_in_range { i < lines }
    requires other_line_in_range { k < lines }
    ensures { result ≡ same_pair (rows_in values.now start (width (table_at routes)) lines) i k }
{
    let a = start + i * ROUTE_COLUMNS;
    let b = start + k * ROUTE_COLUMNS;
    if at(values, a, ROUTE_TRACK) != at(values, b, ROUTE_TRACK) {
        return false;
    }
    at(values, a, ROUTE_SEND) == at(values, b, ROUTE_SEND)
}

// Whether no line before line i routes its pair.
fn new_pair(values: &[u32], start: usize, lines: usize, i: usize) -> bool
    requires table_in_range { start + lines * width (table_at routes) ≤ places_most }
    requires line_in_range { i < lines }
    ensures { result ≡ new_pair (rows_in values.now start (width (table_at routes)) lines) i }
{
    (0..i).all(|k| !same_pair(values, start, lines, i, k))
}

// Question 7, of the routes.
pub fn routes_fit(values: &[u32], start: usize, lines: usize) -> bool
    requires { start + lines * width (table_at routes) ≤ places_most }
    ensures { result ≡ routes_fit (rows_in values.now start (width (table_at routes)) lines) }
{
    (0..lines).all(|i| new_pair(values, start, lines, i))
}

// Whether two lines place the same track.
fn same_track(values: &[u32], start: usize, lines: usize, i: usize, k: usize) -> bool
    requires table_in_range { start + lines * width (table_at placings) ≤ places_most }
    requires line_in_range { i < lines }
    requires other_line_in_range { k < lines }
    ensures { let rows = rows_in values.now start (width (table_at placings)) lines in
        result ≡ eqb (cell rows i placing_column.track) (cell rows k placing_column.track) }
{
    let a = start + i * PLACING_COLUMNS;
    let b = start + k * PLACING_COLUMNS;
    at(values, a, PLACING_TRACK) == at(values, b, PLACING_TRACK)
}

// Whether no line before line i places its track.
fn new_placing(values: &[u32], start: usize, lines: usize, i: usize) -> bool
    requires table_in_range { start + lines * width (table_at placings) ≤ places_most }
    requires line_in_range { i < lines }
    ensures { result ≡ new_placing (rows_in values.now start (width (table_at placings)) lines) i }
{
    (0..i).all(|k| !same_track(values, start, lines, i, k))
}

// Question 7, of the placings.
pub fn placings_fit(values: &[u32], start: usize, lines: usize) -> bool
    requires { start + lines * width (table_at placings) ≤ places_most }
    ensures { result ≡ placings_fit (rows_in values.now start (width (table_at placings)) lines) }
{
    (0..lines).all(|i| new_placing(values, start, lines, i))
}
