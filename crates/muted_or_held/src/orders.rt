// Orders, of the numbers in their places.
ghost use Rattle.std.specs.Prelude.{◌≡◌, ◌<◌, get_or};
ghost use Rattle.scene_tables.specs.Tables.{table_at, width, orders};
ghost use Rattle.scene_questions.specs.Questions.{rows_at, cell};
ghost use Rattle.scene_questions.specs.Places.{stored, Low};
ghost use Rattle.noninterference.specs.Silent.{names};

use scene_file::{at, natural_of};
use scene_tables::column::{ORDER_COLUMNS, ORDER_INDEX, ORDER_KIND};
use scene_tables::{ORDERS, TABLES};

// A field of an order.
pub fn order_field(
    values: &[u32],
    starts: &[usize; TABLES],
    counts: &[usize; TABLES],
    i: usize,
    j: usize,
) -> u32
    requires tables_in_range { Low starts.now counts.now }
    requires order_in_table { i < get_or counts.now orders 0 }
    requires field_in_range { j < width (table_at orders) }
    ensures { let ts = stored starts.now counts.now values.now in
        result ≡ cell (rows_at ts orders) i j }
{
    at(values, starts[ORDERS] + i * ORDER_COLUMNS, j)
}

// Whether an order is of a kind and names a track, counted from 0.
pub fn names_track(
    values: &[u32],
    starts: &[usize; TABLES],
    counts: &[usize; TABLES],
    kind: u32,
    track: usize,
    i: usize,
) -> bool
    requires tables_in_range { Low starts.now counts.now }
    requires order_in_table { i < get_or counts.now orders 0 }
    ensures { let ts = stored starts.now counts.now values.now in
        result ≡ names ts kind track i }
{
    if order_field(values, starts, counts, i, ORDER_KIND) != kind {
        return false;
    }
    let line = natural_of(order_field(values, starts, counts, i, ORDER_INDEX));
    if line == 0 {
        return false;
    }
    line - 1 == track
}
