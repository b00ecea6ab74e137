// kira's playback_state_manager.rs. Nothing here stops a track by an order, so `stop` and
// `mark_as_stopped` are left out.
ghost use Rattle.std.specs.Prelude.{◌≡◌, ◌≤◌};
ghost use Rattle.rounding.specs.Duration.{InAnHour};
ghost use Rattle.playback.specs.PlaybackStateManager.{is_advancing, is_stopped, playback_new, interpolated_fade_volume, playback_pause, resumed};
ghost use Rattle.playback.specs.PlaybackStateManager.{playback_resume, after_fade, waiting_update, state_update, playback_update};
ghost use Rattle.tween.specs.StartTime.{start_time_update};

use clock::Clocks;
use decibels::Decibels;
use parameter::Parameter;
use tween::{StartTime, Tween};

// kira's Decibels::SILENCE and Decibels::IDENTITY.
const SILENCE: f32 = -60.0;

const IDENTITY: f32 = 0.0;

// kira's State, which its PlaybackState shows without what it waits for.
#[derive(Clone, Copy)]
pub enum PlaybackState {
    Playing,
    Pausing,
    Paused,
    WaitingToResume {
        start_time: StartTime,
        fade_in_tween: Tween,
    },
    Resuming,
    Stopping,
    Stopped,
}

impl PlaybackState {
    // Whether sounds move on.
    #[tactic(auto, unfolding(crate::specs::PlaybackStateManager::is_advancing))]
    pub fn is_advancing(self) -> bool
        ensures { result ≡ is_advancing self }
    {
        match self {
            PlaybackState::Playing => true,
            PlaybackState::Pausing => true,
            PlaybackState::Paused => false,
            PlaybackState::WaitingToResume {
                start_time: _,
                fade_in_tween: _,
            } => false,
            PlaybackState::Resuming => true,
            PlaybackState::Stopping => true,
            PlaybackState::Stopped => false,
        }
    }

    #[tactic(auto, unfolding(crate::specs::PlaybackStateManager::is_stopped))]
    fn is_stopped(self) -> bool
        ensures { result ≡ is_stopped self }
    {
        matches!(self, PlaybackState::Stopped)
    }
}

#[derive(Clone, Copy)]
pub struct PlaybackStateManager {
    pub state: PlaybackState,
    pub volume_fade: Parameter,
}

impl PlaybackStateManager {
    pub fn new() -> PlaybackStateManager
        ensures { result ≡ playback_new }
    {
        PlaybackStateManager {
            state: PlaybackState::Playing,
            volume_fade: Parameter::new(Decibels(IDENTITY)),
        }
    }

    #[tactic(auto, unfolding(crate::specs::PlaybackStateManager::interpolated_fade_volume))]
    pub fn interpolated_fade_volume(self, amount: f64) -> Decibels
        ensures { result ≡ interpolated_fade_volume self amount }
    {
        let fade = self.volume_fade;
        fade.interpolated_value(amount)
    }

    #[tactic(auto, unfolding(crate::specs::PlaybackStateManager::playback_pause))]
    pub fn pause(&mut self, tween: Tween)
        ensures { self.new ≡ playback_pause self.old tween }
    {
        if self.state.is_stopped() {
            return;
        }
        self.state = PlaybackState::Pausing;
        self.volume_fade.set(Decibels(SILENCE), tween);
    }

    #[tactic(auto, unfolding(crate::specs::PlaybackStateManager::playback_resume, crate::specs::PlaybackStateManager::resumed_at))]
    pub fn resume(&mut self, start: StartTime, tween: Tween)
        ensures { self.new ≡ playback_resume self.old start tween }
    {
        if self.state.is_stopped() {
            return;
        }
        if start.is_immediate() {
            self.resume_fade(tween);
        } else {
            self.state = PlaybackState::WaitingToResume {
                start_time: start,
                fade_in_tween: tween,
            };
        }
    }

    fn resume_fade(&mut self, tween: Tween)
        ensures { self.new ≡ resumed self.old.volume_fade tween }
    {
        self.state = PlaybackState::Resuming;
        self.volume_fade.set(Decibels(IDENTITY), tween);
    }

    // Answers whether that changed its state.
    #[tactic(auto, unfolding(crate::specs::PlaybackStateManager::playback_update))]
    pub fn update(&mut self, dt: f64, clocks: &Clocks) -> bool
        requires in_an_hour { InAnHour dt }
        requires clocks_fit { clocks.now.count ≤ 8 }
        ensures manager { self.new ≡ (playback_update self.old dt clocks.now).manager }
        ensures changed { result ≡ (playback_update self.old dt clocks.now).changed_playback_state }
    {
        let finished = self.volume_fade.update(dt, clocks);
        self.update_state(finished, dt, clocks)
    }

    // Its fade has moved, and ended or not.
    #[tactic(auto, unfolding(crate::specs::PlaybackStateManager::state_update))]
    fn update_state(&mut self, finished: bool, dt: f64, clocks: &Clocks) -> bool
        requires in_an_hour { InAnHour dt }
        requires clocks_fit { clocks.now.count ≤ 8 }
        ensures manager { self.new ≡ (state_update self.old.state self.old.volume_fade finished dt clocks.now).manager }
        ensures changed { result ≡ (state_update self.old.state self.old.volume_fade finished dt clocks.now).changed_playback_state }
    {
        match self.state {
            PlaybackState::Playing => false,
            PlaybackState::Pausing => self.end_fade(finished, PlaybackState::Paused),
            PlaybackState::Paused => false,
            PlaybackState::WaitingToResume {
                start_time,
                fade_in_tween,
            } => self.wait(start_time, fade_in_tween, dt, clocks),
            PlaybackState::Resuming => self.end_fade(finished, PlaybackState::Playing),
            PlaybackState::Stopping => self.end_fade(finished, PlaybackState::Stopped),
            PlaybackState::Stopped => false,
        }
    }

    // The state is left for the next one where the fade has ended.
    #[tactic(auto, unfolding(crate::specs::PlaybackStateManager::after_fade))]
    fn end_fade(&mut self, finished: bool, next: PlaybackState) -> bool
        ensures manager { self.new ≡ (after_fade finished self.old.state next self.old.volume_fade).manager }
        ensures changed { result ≡ (after_fade finished self.old.state next self.old.volume_fade).changed_playback_state }
    {
        if finished {
            self.state = next;
        }
        finished
    }

    #[tactic(auto, unfolding(crate::specs::PlaybackStateManager::waiting_update, crate::specs::PlaybackStateManager::waited_until))]
    fn wait(&mut self, start: StartTime, tween: Tween, dt: f64, clocks: &Clocks) -> bool
        requires in_an_hour { InAnHour dt }
        requires clocks_fit { clocks.now.count ≤ 8 }
        ensures manager { self.new ≡ (waiting_update (start_time_update start dt clocks.now) tween self.old.volume_fade).manager }
        ensures changed { result ≡ (waiting_update (start_time_update start dt clocks.now) tween self.old.volume_fade).changed_playback_state }
    {
        let mut start_time = start;
        if start_time.update(dt, clocks) {
            self.state = PlaybackState::Stopped;
            return true;
        }
        if start_time.is_immediate() {
            self.resume_fade(tween);
            return true;
        }
        self.state = PlaybackState::WaitingToResume {
            start_time,
            fade_in_tween: tween,
        };
        false
    }
}
