// Which of a block's orders count, and the tweens that they name: order lines stand for kira's command
// readers.
ghost use Rattle.std.specs.Prelude.{◌≡◌, ◌≤◌, ◌<◌};
ghost use Rattle.limits.specs.Limits.{order_lines};
ghost use Rattle.order_lines.specs.Orders.{kind_number, keys, key, counts_by, tween_of, resume_tween_of};

use limits::ROUTE_LINES;
use scene::{OrderKind, OrderLine};
use tween::{StartTime, Tween};

#[tactic(auto, unfolding(crate::specs::Orders::kind_number))]
pub fn kind_number(kind: OrderKind) -> u32
    ensures { result ≡ kind_number kind }
{
    match kind {
        OrderKind::MainVolume => 0,
        OrderKind::TrackVolume => 1,
        OrderKind::SendVolume => 2,
        OrderKind::RouteVolume => 3,
        OrderKind::Pause => 4,
        OrderKind::Resume => 5,
    }
}

// Indices are lines of a table, of which the routes' is the longest.
const KEYS: usize = ROUTE_LINES + 1;

pub const MARKS: usize = 6 * KEYS;

// Of each kind and index the last line in a block. Lines are counted from 1, and 0 is none.
pub type Marks = [usize; MARKS];

#[tactic(auto, unfolding(crate::specs::Orders::key))]
pub fn key(kind: OrderKind, index: usize) -> usize
    requires { index < keys }
    ensures { result ≡ key kind index }
{
    kind_number(kind) as usize * KEYS + index
}

// Only a resume is compared with lines of another kind.
pub fn counts_by(marks: &Marks, order: OrderLine, i: usize) -> bool
    requires index_in_range { order.index < keys }
    requires order_in_range { i < order_lines }
    ensures { result ≡ counts_by marks.now order i }
{
    let kind = order.kind;
    let line = i + 1;
    let own = key(kind, order.index);
    if line < marks[own] {
        return false;
    }
    if kind_number(kind) != kind_number(OrderKind::Resume) {
        return true;
    }
    let pause = key(OrderKind::Pause, order.index);
    !(line < marks[pause])
}

#[tactic(auto, unfolding(crate::specs::Orders::tween_of))]
pub fn tween_of(order: OrderLine) -> Tween
    requires { order.millis ≤ 3600000 }
    ensures { result ≡ tween_of order }
{
    let start_time = order.start_time;
    let easing = order.easing;
    Tween {
        start_time,
        duration: order.millis as u32,
        easing,
    }
}

// The fade of a resume starts at once: the order's start is the resume's.
#[tactic(auto, unfolding(crate::specs::Orders::resume_tween_of))]
pub fn resume_tween_of(order: OrderLine) -> Tween
    requires { order.millis ≤ 3600000 }
    ensures { result ≡ resume_tween_of order }
{
    let easing = order.easing;
    Tween {
        start_time: StartTime::Immediate,
        duration: order.millis as u32,
        easing,
    }
}
