// A scene: the tables of an accepted file. Line numbers count from 1, as in the file.
ghost use Rattle.std.specs.Prelude.{◌≡◌, ℕ, ◌+◌, ◌-◌, ◌*◌, ◌≤◌, true, List, [], take, drop};
ghost use Rattle.scene_tables.specs.Tables.{table_at, width, head, clocks, tracks, sends, routes, sounds, listener, placings, orders};
ghost use Rattle.scene_questions.specs.Places.{rows_in, stored, counts_fit, places_most, Low};
ghost use Rattle.scene.specs.Scene.{thousandths, volume_of, kind_of, clock_time_of, start_time_of, easing_of};
ghost use Rattle.scene.specs.Scene.{head_of, clock_of, track_of, send_of, route_of, sound_of, order_of, filled, scene_of};
ghost use Rattle.scene.specs.Scene.{listener_of, position_of, distances_of, placing_of, placings_of};
ghost use Rattle.scene.specs.Placed.{ListenersOk, PlacingOk, PlacingsOk};

use clock::{ClockSpeed, ClockTime};
use decibels::Decibels;
use limits::{CLOCK_LINES, ORDER_LINES, ROUTE_LINES, SEND_LINES, SOUND_LINES, TRACK_LINES};
use scene_file::{at, natural_of};
use scene_rules::speed_of;
use scene_tables::{
    CLOCKS, HEAD, KIND_MAIN_VOLUME, KIND_PAUSE, KIND_ROUTE_VOLUME, KIND_SEND_VOLUME,
    KIND_TRACK_VOLUME, LISTENER, ONE, ORDERS, PLACINGS, ROUTES, SENDS, SOUNDS, TABLES, TRACKS, TWO,
    ZERO, column,
};
use spatial::{Distances, Placing, Position, attenuation};
use tween::{Easing, StartTime};

#[derive(Clone, Copy)]
pub struct Head {
    pub rate: usize,
    pub channels: usize,
    pub buffer: usize,
    pub block: usize,
    pub blocks: usize,
    pub volume: Decibels,
}

#[derive(Clone, Copy)]
pub struct ClockLine {
    pub speed: ClockSpeed,
    pub ticking: bool,
}

// The parent is a track's line number, counted from 1, or 0 for the mixer.
#[derive(Clone, Copy)]
pub struct TrackLine {
    pub parent: usize,
    pub volume: Decibels,
}

#[derive(Clone, Copy)]
pub struct SendLine {
    pub volume: Decibels,
}

// Line numbers, counted from 1.
#[derive(Clone, Copy)]
pub struct RouteLine {
    pub track: usize,
    pub send: usize,
    pub volume: Decibels,
}

// The track is a line number, counted from 1, or 0 for the main track; first and count are frames of the
// buffer that the sound is from.
#[derive(Clone, Copy)]
pub struct SoundLine {
    pub track: usize,
    pub first: usize,
    pub count: usize,
    pub from: usize,
}

// How a track stands in the room. (A field may hold an array of structs, not one of enums.)
#[derive(Clone, Copy)]
pub struct TrackPlacing {
    pub placing: Placing,
}

#[derive(Clone, Copy, PartialEq, Eq, Debug)]
pub enum OrderKind {
    MainVolume,
    TrackVolume,
    SendVolume,
    RouteVolume,
    Pause,
    Resume,
}

// The index is a line number, counted from 1, or 0 for the main volume.
#[derive(Clone, Copy)]
pub struct OrderLine {
    pub block: usize,
    pub kind: OrderKind,
    pub index: usize,
    pub target: Decibels,
    pub start_time: StartTime,
    pub millis: u64,
    pub easing: Easing,
}

#[derive(Clone, Copy)]
pub struct Scene {
    pub head: Head,
    pub clock_count: usize,
    pub clocks: [ClockLine; CLOCK_LINES],
    pub track_count: usize,
    pub tracks: [TrackLine; TRACK_LINES],
    pub send_count: usize,
    pub sends: [SendLine; SEND_LINES],
    pub route_count: usize,
    pub routes: [RouteLine; ROUTE_LINES],
    pub sound_count: usize,
    pub sounds: [SoundLine; SOUND_LINES],
    // Of each track line.
    pub placings: [TrackPlacing; TRACK_LINES],
    pub order_count: usize,
    pub orders: [OrderLine; ORDER_LINES],
}

// A line of a table.
trait Line: Copy {
    ghost of: { List ℕ → Self };

    ghost columns: { ℕ };

    fn read(values: &[u32], a: usize) -> Self
        ensures { result ≡ of (take columns (drop a values.now)) };
}

// Thousandths are made an f32 by dividing by 1000.
fn thousandths(z: u32) -> f32
    ensures { result ≡ thousandths z }
{
    if z < ZERO {
        return -std::num::nearest_u32_to_f32(ZERO - z) / 1000.0;
    }
    std::num::nearest_u32_to_f32(z - ZERO) / 1000.0
}

fn volume_of(z: u32) -> Decibels
    ensures { result ≡ volume_of z }
{
    Decibels(thousandths(z))
}

fn kind_of(z: u32) -> OrderKind
    ensures { result ≡ kind_of z }
{
    if z == KIND_MAIN_VOLUME {
        return OrderKind::MainVolume;
    }
    if z == KIND_TRACK_VOLUME {
        return OrderKind::TrackVolume;
    }
    if z == KIND_SEND_VOLUME {
        return OrderKind::SendVolume;
    }
    if z == KIND_ROUTE_VOLUME {
        return OrderKind::RouteVolume;
    }
    if z == KIND_PAUSE {
        return OrderKind::Pause;
    }
    OrderKind::Resume
}

// A line number counted from 0.
fn from_zero(line: usize) -> usize
    ensures { result ≡ line - 1 }
{
    if line == 0 {
        return 0;
    }
    line - 1
}

fn clock_time_of(clock: u32, when: u32, part: u32) -> ClockTime
    ensures { result ≡ clock_time_of clock when part }
{
    ClockTime {
        clock: from_zero(natural_of(clock)),
        ticks: natural_of(when) as u64,
        fraction: ((natural_of(part) as u32) as f64) / 1000.0,
    }
}

fn start_time_of(clock: u32, when: u32, part: u32) -> StartTime
    ensures { result ≡ start_time_of clock when part }
{
    if clock != ZERO {
        return StartTime::ClockTime(clock_time_of(clock, when, part));
    }
    if when == ZERO {
        return StartTime::Immediate;
    }
    StartTime::Delayed((natural_of(when) as u64) * 1000000)
}

fn easing_of(easing: u32, power: u32) -> Easing
    ensures { result ≡ easing_of easing power }
{
    let n = natural_of(power) as u32;
    if easing == ZERO {
        return Easing::Linear;
    }
    if easing == ONE {
        return Easing::InPowi(n);
    }
    if easing == TWO {
        return Easing::OutPowi(n);
    }
    Easing::InOutPowi(n)
}

fn head_of(values: &[u32], a: usize) -> Head
    ensures { result ≡ head_of (take (width (table_at head)) (drop a values.now)) }
{
    Head {
        rate: natural_of(at(values, a, column::HEAD_RATE)),
        channels: natural_of(at(values, a, column::HEAD_CHANNELS)),
        buffer: natural_of(at(values, a, column::HEAD_BUFFER)),
        block: natural_of(at(values, a, column::HEAD_BLOCK)),
        blocks: natural_of(at(values, a, column::HEAD_BLOCKS)),
        volume: volume_of(at(values, a, column::HEAD_VOLUME)),
    }
}

impl Line for ClockLine {
    ghost of = { clock_of };

    ghost columns = { width (table_at clocks) };

    fn read(values: &[u32], a: usize) -> ClockLine {
        ClockLine {
            speed: speed_of(
                at(values, a, column::CLOCK_UNIT),
                at(values, a, column::CLOCK_SPEED),
            ),
            ticking: at(values, a, column::CLOCK_TICKING) == ONE,
        }
    }
}

impl Line for TrackLine {
    ghost of = { track_of };

    ghost columns = { width (table_at tracks) };

    fn read(values: &[u32], a: usize) -> TrackLine {
        TrackLine {
            parent: natural_of(at(values, a, column::TRACK_PARENT)),
            volume: volume_of(at(values, a, column::TRACK_VOLUME)),
        }
    }
}

impl Line for SendLine {
    ghost of = { send_of };

    ghost columns = { width (table_at sends) };

    fn read(values: &[u32], a: usize) -> SendLine {
        SendLine {
            volume: volume_of(at(values, a, column::SEND_VOLUME)),
        }
    }
}

impl Line for RouteLine {
    ghost of = { route_of };

    ghost columns = { width (table_at routes) };

    fn read(values: &[u32], a: usize) -> RouteLine {
        RouteLine {
            track: natural_of(at(values, a, column::ROUTE_TRACK)),
            send: natural_of(at(values, a, column::ROUTE_SEND)),
            volume: volume_of(at(values, a, column::ROUTE_VOLUME)),
        }
    }
}

impl Line for SoundLine {
    ghost of = { sound_of };

    ghost columns = { width (table_at sounds) };

    fn read(values: &[u32], a: usize) -> SoundLine {
        SoundLine {
            track: natural_of(at(values, a, column::SOUND_TRACK)),
            first: natural_of(at(values, a, column::SOUND_FIRST)),
            count: natural_of(at(values, a, column::SOUND_COUNT)),
            from: natural_of(at(values, a, column::SOUND_FROM)),
        }
    }
}

impl Line for OrderLine {
    ghost of = { order_of };

    ghost columns = { width (table_at orders) };

    fn read(values: &[u32], a: usize) -> OrderLine {
        OrderLine {
            block: natural_of(at(values, a, column::ORDER_BLOCK)),
            kind: kind_of(at(values, a, column::ORDER_KIND)),
            index: natural_of(at(values, a, column::ORDER_INDEX)),
            target: volume_of(at(values, a, column::ORDER_VOLUME)),
            start_time: start_time_of(
                at(values, a, column::ORDER_CLOCK),
                at(values, a, column::ORDER_WHEN),
                at(values, a, column::ORDER_PART),
            ),
            millis: natural_of(at(values, a, column::ORDER_MILLIS)) as u64,
            easing: easing_of(
                at(values, a, column::ORDER_EASING),
                at(values, a, column::ORDER_POWER),
            ),
        }
    }
}

// The lines of a table in their order, and in the other places what a line past the numbers' end gives.
fn lines<T: Line, const N: usize>(
    values: &[u32],
    start: usize,
    width: usize,
    lines: usize,
) -> [T; N]
    requires columns { width ≡ T.columns }
    requires table_in_range { start + lines * width ≤ places_most }
    requires lines_fit { lines ≤ N }
    ensures { result ≡ filled N T.of (rows_in values.now start T.columns lines) }
{
    let mut out = [T::read(values, values.len()); N];
    for i in 0..lines {
        out[i] = T::read(values, start + i * width);
    }
    out
}

fn listener_of(values: &[u32], a: usize) -> Position
    ensures { result ≡ listener_of (take (width (table_at listener)) (drop a values.now)) }
{
    Position {
        x: thousandths(at(values, a, column::LISTENER_X)),
        y: thousandths(at(values, a, column::LISTENER_Y)),
        z: thousandths(at(values, a, column::LISTENER_Z)),
    }
}

fn position_of(values: &[u32], a: usize) -> Position
    ensures { result ≡ position_of (take (width (table_at placings)) (drop a values.now)) }
{
    Position {
        x: thousandths(at(values, a, column::PLACING_X)),
        y: thousandths(at(values, a, column::PLACING_Y)),
        z: thousandths(at(values, a, column::PLACING_Z)),
    }
}

fn distances_of(values: &[u32], a: usize) -> Distances
    ensures { result ≡ distances_of (take (width (table_at placings)) (drop a values.now)) }
{
    Distances {
        min_distance: thousandths(at(values, a, column::PLACING_NEAR)),
        max_distance: thousandths(at(values, a, column::PLACING_FAR)),
    }
}

// The placing of the line at `a`, for the listener whose table begins at `start`.
fn placing_of(values: &[u32], start: usize, lines: usize, a: usize) -> Placing
    requires listeners_ok { ListenersOk (rows_in values.now start (width (table_at listener)) lines) }
    requires placing_ok { PlacingOk (take (width (table_at placings)) (drop a values.now)) }
    ensures { result ≡ placing_of (rows_in values.now start (width (table_at listener)) lines) (take (width (table_at placings)) (drop a values.now)) }
{
    if lines == 0 {
        return Placing::Unheard;
    }
    let listener = listener_of(values, start);
    let position = position_of(values, a);
    Placing::Spatial(attenuation(listener, position, distances_of(values, a)))
}

// Each track's placing: tracks that no line places are plain.
fn placings_of(
    values: &[u32],
    starts: &[usize; TABLES],
    counts: &[usize; TABLES],
) -> [TrackPlacing; TRACK_LINES]
    requires tables_in_range { Low starts.now counts.now }
    requires placings_ok { PlacingsOk (stored starts.now counts.now values.now) }
    ensures { result ≡ placings_of (stored starts.now counts.now values.now) }
{
    let listener = starts[LISTENER];
    let listeners = counts[LISTENER];
    let start = starts[PLACINGS];
    let lines = counts[PLACINGS];
    let plain = TrackPlacing {
        placing: Placing::Plain,
    };
    let mut out = [plain; TRACK_LINES];
    for i in 0..lines {
        let a = start + i * column::PLACING_COLUMNS;
        let track = natural_of(at(values, a, column::PLACING_TRACK));
        let placing = placing_of(values, listener, listeners, a);
        out[track - 1] = TrackPlacing { placing };
    }
    out
}

// The scene that the tables give.
pub fn scene_of(values: &[u32], starts: &[usize; TABLES], counts: &[usize; TABLES]) -> Scene
    requires tables_in_range { Low starts.now counts.now }
    requires counts_fit { counts_fit counts.now ≡ true }
    requires placings_ok { PlacingsOk (stored starts.now counts.now values.now) }
    ensures { result ≡ scene_of (stored starts.now counts.now values.now) }
{
    let head = head_of(values, starts[HEAD]);
    let clocks = lines(
        values,
        starts[CLOCKS],
        column::CLOCK_COLUMNS,
        counts[CLOCKS],
    );
    let tracks = lines(
        values,
        starts[TRACKS],
        column::TRACK_COLUMNS,
        counts[TRACKS],
    );
    let sends = lines(values, starts[SENDS], column::SEND_COLUMNS, counts[SENDS]);
    let routes = lines(
        values,
        starts[ROUTES],
        column::ROUTE_COLUMNS,
        counts[ROUTES],
    );
    let sounds = lines(
        values,
        starts[SOUNDS],
        column::SOUND_COLUMNS,
        counts[SOUNDS],
    );
    let placings = placings_of(values, starts, counts);
    let orders = lines(
        values,
        starts[ORDERS],
        column::ORDER_COLUMNS,
        counts[ORDERS],
    );
    Scene {
        head,
        clock_count: counts[CLOCKS],
        clocks,
        track_count: counts[TRACKS],
        tracks,
        send_count: counts[SENDS],
        sends,
        route_count: counts[ROUTES],
        routes,
        sound_count: counts[SOUNDS],
        sounds,
        placings,
        order_count: counts[ORDERS],
        orders,
    }
}

// The scene of a refusal: no line at all, as tables that begin past the numbers' end have none.
pub fn no_scene() -> Scene
    ensures { result ≡ scene_of [] }
{
    let values = [0u32; 1];
    let head = head_of(&values, 1);
    let clocks = lines(&values, 1, column::CLOCK_COLUMNS, 0);
    let tracks = lines(&values, 1, column::TRACK_COLUMNS, 0);
    let sends = lines(&values, 1, column::SEND_COLUMNS, 0);
    let routes = lines(&values, 1, column::ROUTE_COLUMNS, 0);
    let sounds = lines(&values, 1, column::SOUND_COLUMNS, 0);
    let plain = TrackPlacing {
        placing: Placing::Plain,
    };
    let placings = [plain; TRACK_LINES];
    let orders = lines(&values, 1, column::ORDER_COLUMNS, 0);
    Scene {
        head,
        clock_count: 0,
        clocks,
        track_count: 0,
        tracks,
        send_count: 0,
        sends,
        route_count: 0,
        routes,
        sound_count: 0,
        sounds,
        placings,
        order_count: 0,
        orders,
    }
}
