// The list of tables. A new table or field is a row here and in specs/Tables.antt, and a name in
// column.rt; no other file says how many tables there are, or how many fields.

ghost use Rattle.std.specs.Prelude.{◌≡◌, ◌<◌, length, get_or};
ghost use Rattle.scene_tables.specs.Tables.{tables, table_at, no_field};
ghost use Rattle.scene_tables.specs.InCode.{names_text, rule_of, all_fields};

use crate::column;
use limits::{
    CLOCK_LINES, LISTENER_LINES, ORDER_LINES, PLACING_LINES, ROUTE_LINES, SEND_LINES, SOUND_LINES,
    TRACK_LINES,
};

// The rule of one field. Numbers are raised by 2^31.
#[derive(Clone, Copy, PartialEq, Eq, Debug)]
pub enum Field {
    // A number from the first to the second, both included.
    Number(u32, u32),
    // A line number of that table, from the second number on.
    Line(usize, u32),
    // 0 or an earlier line of the same table.
    Earlier,
    // An order's index.
    Index,
}

// The rule of a line as a whole.
#[derive(Clone, Copy, PartialEq, Eq, Debug)]
pub enum LineRule {
    Plain,
    Speed,
    Apart,
    Order,
}

// How many value lines a table may have, how many fields each has, and the rule of a line.
#[derive(Clone, Copy)]
pub struct TableRule {
    pub least: usize,
    pub most: usize,
    pub fields: usize,
    pub rule: LineRule,
}

// What 0, 1 and 2 are when they are raised.
pub const ZERO: u32 = 2147483648;

pub const ONE: u32 = ZERO + 1;

pub const TWO: u32 = ZERO + 2;

// Thousandths of a decibel.
pub const QUIETEST: u32 = ZERO - 96000;

pub const LOUDEST: u32 = ZERO + 18000;

// Thousandths of the unit of length.
pub const FARTHEST: u32 = 1000000;

pub const TABLES: usize = 9;

pub const HEAD: usize = 0;

pub const CLOCKS: usize = 1;

pub const TRACKS: usize = 2;

pub const SENDS: usize = 3;

pub const ROUTES: usize = 4;

pub const SOUNDS: usize = 5;

pub const LISTENER: usize = 6;

pub const PLACINGS: usize = 7;

pub const ORDERS: usize = 8;

// The kinds of orders, raised.
pub const KIND_MAIN_VOLUME: u32 = ZERO;

pub const KIND_TRACK_VOLUME: u32 = ZERO + 1;

pub const KIND_SEND_VOLUME: u32 = ZERO + 2;

pub const KIND_ROUTE_VOLUME: u32 = ZERO + 3;

pub const KIND_PAUSE: u32 = ZERO + 4;

pub const KIND_RESUME: u32 = ZERO + 5;

// The names lines one after the other, each with its line feed.
pub const NAMES_BYTES: usize = 209;

const NAMES: [u8; NAMES_BYTES] =
    *b"rate channels buffer block blocks volume\nunit speed ticking\nparent volume\nvolume\ntrack send volume\n\
       track first count from\nx y z\ntrack x y z near far\nblock kind index volume clock when part millis easing power\n";

const RULES: [TableRule; TABLES] = [
    TableRule {
        least: 1,
        most: 1,
        fields: column::HEAD_COLUMNS,
        rule: LineRule::Plain,
    },
    TableRule {
        least: 0,
        most: CLOCK_LINES,
        fields: column::CLOCK_COLUMNS,
        rule: LineRule::Speed,
    },
    TableRule {
        least: 0,
        most: TRACK_LINES,
        fields: column::TRACK_COLUMNS,
        rule: LineRule::Plain,
    },
    TableRule {
        least: 0,
        most: SEND_LINES,
        fields: column::SEND_COLUMNS,
        rule: LineRule::Plain,
    },
    TableRule {
        least: 0,
        most: ROUTE_LINES,
        fields: column::ROUTE_COLUMNS,
        rule: LineRule::Plain,
    },
    TableRule {
        least: 0,
        most: SOUND_LINES,
        fields: column::SOUND_COLUMNS,
        rule: LineRule::Plain,
    },
    TableRule {
        least: 0,
        most: LISTENER_LINES,
        fields: column::LISTENER_COLUMNS,
        rule: LineRule::Plain,
    },
    TableRule {
        least: 0,
        most: PLACING_LINES,
        fields: column::PLACING_COLUMNS,
        rule: LineRule::Apart,
    },
    TableRule {
        least: 0,
        most: ORDER_LINES,
        fields: column::ORDER_COLUMNS,
        rule: LineRule::Order,
    },
];

pub const FIELD_COUNT: usize = column::HEAD_COLUMNS
    + column::CLOCK_COLUMNS
    + column::TRACK_COLUMNS
    + column::SEND_COLUMNS
    + column::ROUTE_COLUMNS
    + column::SOUND_COLUMNS
    + column::LISTENER_COLUMNS
    + column::PLACING_COLUMNS
    + column::ORDER_COLUMNS;

// The fields of all tables, one after the other.
const FIELDS: [Field; FIELD_COUNT] = [
    // rate channels buffer block blocks volume
    Field::Number(ZERO + 8000, ZERO + 192000),
    Field::Number(ZERO + 1, ZERO + 8),
    Field::Number(ZERO + 1, ZERO + 256),
    Field::Number(ZERO + 1, ZERO + 512),
    Field::Number(ZERO + 1, ZERO + 1024),
    Field::Number(QUIETEST, LOUDEST),
    // unit speed ticking
    Field::Number(ZERO, ZERO + 2),
    Field::Number(ZERO + 1, ZERO + 60000000),
    Field::Number(ZERO, ZERO + 1),
    // parent volume
    Field::Earlier,
    Field::Number(QUIETEST, LOUDEST),
    // volume
    Field::Number(QUIETEST, LOUDEST),
    // track send volume
    Field::Line(TRACKS, ZERO + 1),
    Field::Line(SENDS, ZERO + 1),
    Field::Number(QUIETEST, LOUDEST),
    // track first count from
    Field::Line(TRACKS, ZERO),
    Field::Number(ZERO, ZERO + 2147483647),
    Field::Number(ZERO, ZERO + 2147483647),
    Field::Number(ZERO, ZERO + 1),
    // x y z
    Field::Number(ZERO - FARTHEST, ZERO + FARTHEST),
    Field::Number(ZERO - FARTHEST, ZERO + FARTHEST),
    Field::Number(ZERO - FARTHEST, ZERO + FARTHEST),
    // track x y z near far
    Field::Line(TRACKS, ZERO + 1),
    Field::Number(ZERO - FARTHEST, ZERO + FARTHEST),
    Field::Number(ZERO - FARTHEST, ZERO + FARTHEST),
    Field::Number(ZERO - FARTHEST, ZERO + FARTHEST),
    Field::Number(ZERO, ZERO + FARTHEST),
    Field::Number(ZERO, ZERO + FARTHEST),
    // block kind index volume clock when part millis easing power
    Field::Number(ZERO, ZERO + 1023),
    Field::Number(KIND_MAIN_VOLUME, KIND_RESUME),
    Field::Index,
    Field::Number(QUIETEST, LOUDEST),
    Field::Line(CLOCKS, ZERO),
    Field::Number(ZERO, ZERO + 3600000),
    Field::Number(ZERO, ZERO + 999),
    Field::Number(ZERO, ZERO + 3600000),
    Field::Number(ZERO, ZERO + 3),
    Field::Number(ZERO, ZERO + 8),
];

pub fn names_text() -> [u8; NAMES_BYTES]
    ensures { result ≡ names_text tables }
{
    NAMES
}

pub fn rule_of(t: usize) -> TableRule
    requires { t < length tables }
    ensures { result ≡ rule_of (table_at t) }
{
    RULES[t]
}

pub fn field_of(k: usize) -> Field
    requires { k < length (all_fields tables) }
    ensures { result ≡ get_or (all_fields tables) k no_field }
{
    FIELDS[k]
}
