// Questions 3, 4 and 5, of the numbers in their places.
ghost use Rattle.std.specs.Prelude.{◌≡◌, ◌&&◌, ◌+◌, ◌*◌, ◌≤◌, ◌<◌, leb, length, get_or, drop};
ghost use Rattle.clock.specs.ClockSpeed.{allowed_speed};
ghost use Rattle.scene_tables.specs.Tables.{tables, table_at};
ghost use Rattle.scene_tables.specs.InCode.{all_fields};
ghost use Rattle.scene_questions.specs.Questions.{in_range, names_line, index_table, index_names_line};
ghost use Rattle.scene_questions.specs.Questions.{speed_of, volume_fits, part_fits, millis_fit, power_fits, order_fits};
ghost use Rattle.scene_questions.specs.Places.{count_at, counts_fit, field_passes, line_passes, fields_pass, table_passes, tables_pass, places_most, Low};

use clock::ClockSpeed;
use scene_file::{at, natural_of};
use scene_tables::{
    Field, KIND_MAIN_VOLUME, KIND_PAUSE, KIND_ROUTE_VOLUME, KIND_SEND_VOLUME, LineRule, ONE,
    ROUTES, SENDS, TABLES, TRACKS, ZERO, column, field_of, rule_of,
};

// How many lines a table has; none beyond the list.
fn count_of(counts: &[usize; TABLES], t: usize) -> usize
    ensures { result ≡ count_at counts.now t }
{
    if t < TABLES { counts[t] } else { 0 }
}

// Whether a table may have so many lines.
fn count_fits(t: usize, lines: usize) -> bool
    requires { t < length tables }
    ensures { result ≡ (leb (table_at t).least lines && leb lines (table_at t).most) }
{
    let rule = rule_of(t);
    rule.least <= lines && lines <= rule.most
}

// Question 3.
pub fn counts_fit(counts: &[usize; TABLES]) -> bool
    ensures { result ≡ counts_fit counts.now }
{
    (0..TABLES).all(|t| count_fits(t, counts[t]))
}

fn in_range(f: Field, z: u32) -> bool
    ensures { result ≡ in_range f z }
{
    match f {
        Field::Number(a, b) => {
            if z < a {
                return false;
            }
            z <= b
        }
        Field::Line(_, _) => true,
        Field::Earlier => true,
        Field::Index => true,
    }
}

// The line's own number counts from 0.
fn names_line(f: Field, own: usize, z: u32, counts: &[usize; TABLES]) -> bool
    ensures { result ≡ names_line (count_at counts.now) f own z }
{
    match f {
        Field::Number(_, _) => true,
        Field::Line(k, a) => {
            if z < a {
                return false;
            }
            natural_of(z) <= count_of(counts, k)
        }
        Field::Earlier => {
            if z < ZERO {
                return false;
            }
            natural_of(z) <= own
        }
        Field::Index => true,
    }
}

// One field by question 5, or by question 4.
fn field_passes(references: bool, f: Field, own: usize, z: u32, counts: &[usize; TABLES]) -> bool
    ensures { result ≡ field_passes references (count_at counts.now) f own z }
{
    if references {
        return names_line(f, own, z, counts);
    }
    in_range(f, z)
}

// The fields of the line at `a`, whose rules begin at `first`.
fn fields_pass(
    references: bool,
    first: usize,
    width: usize,
    own: usize,
    values: &[u32],
    a: usize,
    counts: &[usize; TABLES],
) -> bool
    requires { first + width ≤ length (all_fields tables) }
    ensures { result ≡ fields_pass references (count_at counts.now) first width own values.now a }
{
    for j in 0..width {
        if !field_passes(
            references,
            field_of(first + j),
            own,
            at(values, a, j),
            counts,
        ) {
            return false;
        }
    }
    true
}

// A clock's speed: its unit, and thousandths of its number.
pub fn speed_of(unit: u32, speed: u32) -> ClockSpeed
    ensures { result ≡ speed_of unit speed }
{
    let number = ((natural_of(speed) as u32) as f64) / 1000.0;
    if unit == ZERO {
        return ClockSpeed::SecondsPerTick(number);
    }
    if unit == ONE {
        return ClockSpeed::TicksPerSecond(number);
    }
    ClockSpeed::TicksPerMinute(number)
}

fn speed_fits(unit: u32, speed: u32) -> bool
    ensures { result ≡ allowed_speed (speed_of unit speed) }
{
    let ticks = speed_of(unit, speed).as_ticks_per_second();
    if 0.0 <= ticks {
        return ticks <= 1000.0;
    }
    false
}

fn volume_fits(kind: u32, volume: u32) -> bool
    ensures { result ≡ volume_fits kind volume }
{
    if KIND_PAUSE <= kind {
        return volume == ZERO;
    }
    true
}

fn part_fits(clock: u32, part: u32) -> bool
    ensures { result ≡ part_fits clock part }
{
    if clock == ZERO {
        return part == ZERO;
    }
    true
}

fn millis_fit(kind: u32, clock: u32, when: u32, millis: u32) -> bool
    ensures { result ≡ millis_fit kind clock when millis }
{
    if KIND_PAUSE < kind {
        return true;
    }
    if clock != ZERO {
        return ONE <= millis;
    }
    if ZERO < when {
        return ONE <= millis;
    }
    true
}

fn power_fits(easing: u32, power: u32) -> bool
    ensures { result ≡ power_fits easing power }
{
    if easing == ZERO {
        return power == ZERO;
    }
    ONE <= power
}

// The order at `a`, by question 4.
fn order_fits(values: &[u32], a: usize, blocks: u32) -> bool
    ensures { result ≡ order_fits blocks (drop a values.now) }
{
    if blocks <= at(values, a, column::ORDER_BLOCK) {
        return false;
    }
    let kind = at(values, a, column::ORDER_KIND);
    if !volume_fits(kind, at(values, a, column::ORDER_VOLUME)) {
        return false;
    }
    let clock = at(values, a, column::ORDER_CLOCK);
    if !part_fits(clock, at(values, a, column::ORDER_PART)) {
        return false;
    }
    if !millis_fit(
        kind,
        clock,
        at(values, a, column::ORDER_WHEN),
        at(values, a, column::ORDER_MILLIS),
    ) {
        return false;
    }
    power_fits(
        at(values, a, column::ORDER_EASING),
        at(values, a, column::ORDER_POWER),
    )
}

fn index_table(kind: u32) -> usize
    ensures { result ≡ index_table kind }
{
    if kind == KIND_SEND_VOLUME {
        return SENDS;
    }
    if kind == KIND_ROUTE_VOLUME {
        return ROUTES;
    }
    TRACKS
}

fn index_names_line(kind: u32, index: u32, counts: &[usize; TABLES]) -> bool
    ensures { result ≡ index_names_line (count_at counts.now) kind index }
{
    if kind == KIND_MAIN_VOLUME {
        return index == ZERO;
    }
    if index < ONE {
        return false;
    }
    natural_of(index) <= count_of(counts, index_table(kind))
}

// The line at `a` as a whole, by question 5, or by question 4.
fn line_passes(
    references: bool,
    rule: LineRule,
    values: &[u32],
    a: usize,
    blocks: u32,
    counts: &[usize; TABLES],
) -> bool
    ensures { result ≡ line_passes references (count_at counts.now) blocks rule (drop a values.now) }
{
    match rule {
        LineRule::Plain => true,
        LineRule::Speed => {
            if references {
                return true;
            }
            speed_fits(
                at(values, a, column::CLOCK_UNIT),
                at(values, a, column::CLOCK_SPEED),
            )
        }
        LineRule::Apart => {
            if references {
                return true;
            }
            at(values, a, column::PLACING_NEAR) < at(values, a, column::PLACING_FAR)
        }
        LineRule::Order => {
            if references {
                return index_names_line(
                    at(values, a, column::ORDER_KIND),
                    at(values, a, column::ORDER_INDEX),
                    counts,
                );
            }
            order_fits(values, a, blocks)
        }
    }
}

// The lines of a table that begins at `start`.
fn table_passes(
    references: bool,
    rule: LineRule,
    first: usize,
    width: usize,
    values: &[u32],
    start: usize,
    lines: usize,
    blocks: u32,
    counts: &[usize; TABLES],
) -> bool
    requires fields_in_range { first + width ≤ length (all_fields tables) }
    requires table_in_range { start + lines * width ≤ places_most }
    ensures { result ≡ table_passes references (count_at counts.now) blocks rule first width values.now start lines }
{
    let mut a = start;
    for i in 0..lines {
        if !fields_pass(references, first, width, i, values, a, counts) {
            return false;
        }
        if !line_passes(references, rule, values, a, blocks, counts) {
            return false;
        }
        a += width;
    }
    true
}

// Every line of every table, by question 5, or by question 4.
pub fn tables_pass(
    references: bool,
    values: &[u32],
    starts: &[usize; TABLES],
    counts: &[usize; TABLES],
    blocks: u32,
) -> bool
    requires { Low starts.now counts.now }
    ensures { result ≡ tables_pass references (count_at counts.now) blocks starts.now counts.now values.now }
{
    let mut first = 0;
    for t in 0..TABLES {
        let rule = rule_of(t);
        let kind = rule.rule;
        let width = rule.fields;
        let start = starts[t];
        let lines = counts[t];
        if !table_passes(
            references, kind, first, width, values, start, lines, blocks, counts,
        ) {
            return false;
        }
        first += width;
    }
    true
}
