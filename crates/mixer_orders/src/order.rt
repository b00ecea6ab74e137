// What one order does.
ghost use Rattle.std.specs.Prelude.{◌≡◌, cond};
ghost use Rattle.mixer.specs.Sub.{track_set, track_pause, track_resume};
ghost use Rattle.mixer.specs.Orders.{ordered_by, resumed_by};
ghost use Rattle.mixer_orders.specs.There.{OrderThere};

use decibels::Decibels;
use mixer::{Mixer, Track};
use order_lines::{resume_tween_of, tween_of};
use scene::{OrderKind, OrderLine};
use tween::{StartTime, Tween};

#[tactic(auto, unfolding(mixer::specs::Sub::track_set))]
fn set_volume(track: &mut Track, target: Decibels, tween: Tween)
    ensures { track.new ≡ track_set track.old target tween }
{
    track.volume.set(target, tween);
}

#[tactic(auto, unfolding(mixer::specs::Sub::track_pause))]
fn pause(track: &mut Track, tween: Tween)
    ensures { track.new ≡ track_pause track.old tween }
{
    track.playback.pause(tween);
}

#[tactic(auto, unfolding(mixer::specs::Sub::track_resume))]
fn resume_track(track: &mut Track, start: StartTime, tween: Tween)
    ensures { track.new ≡ track_resume track.old start tween }
{
    track.playback.resume(start, tween);
}

// Volumes and pauses.
#[tactic(auto, unfolding(mixer::specs::Orders::ordered_by, mixer::specs::Orders::map_main, mixer::specs::Orders::map_track, mixer::specs::Orders::map_send, mixer::specs::Orders::map_route))]
fn order(mixer: &mut Mixer, order: OrderLine)
    requires { OrderThere order }
    ensures { mixer.new ≡ ordered_by order.kind order mixer.old }
{
    let tween = tween_of(order);
    let target = order.target;
    let line = order.index;
    match order.kind {
        OrderKind::MainVolume => mixer.main_volume.set(target, tween),
        OrderKind::TrackVolume => set_volume(&mut mixer.tracks[line - 1], target, tween),
        OrderKind::SendVolume => mixer.sends[line - 1].set(target, tween),
        OrderKind::RouteVolume => mixer.routes[line - 1].set(target, tween),
        OrderKind::Pause => pause(&mut mixer.tracks[line - 1], tween),
        OrderKind::Resume => {}
    }
}

#[tactic(auto, unfolding(mixer::specs::Orders::resumed_by, mixer::specs::Orders::map_track))]
fn resume(mixer: &mut Mixer, order: OrderLine)
    requires { OrderThere order }
    ensures { mixer.new ≡ resumed_by order.kind order mixer.old }
{
    let tween = resume_tween_of(order);
    let start = order.start_time;
    let line = order.index;
    match order.kind {
        OrderKind::Resume => resume_track(&mut mixer.tracks[line - 1], start, tween),
        _ => {}
    }
}

// An order, where it counts.
pub fn order_where(mixer: &mut Mixer, line: OrderLine, counted: bool)
    requires { OrderThere line }
    ensures { mixer.new ≡ cond counted (ordered_by line.kind line mixer.old) mixer.old }
{
    if counted {
        order(mixer, line);
    }
}

pub fn resume_where(mixer: &mut Mixer, line: OrderLine, counted: bool)
    requires { OrderThere line }
    ensures { mixer.new ≡ cond counted (resumed_by line.kind line mixer.old) mixer.old }
{
    if counted {
        resume(mixer, line);
    }
}
