// Sounds that move on after a chunk.
#![tactic(auto)]

ghost use Rattle.std.specs.Prelude.{◌≡◌, ℕ, ◌<◌, ◌≤◌, ◌+◌, ◌^◌, List, get_or};
ghost use Rattle.limits.specs.Limits.{sound_lines, track_places};
ghost use Rattle.accepted.specs.Lines.{absent_sound_line};
ghost use Rattle.mixer.specs.Mixer.{live_above};
ghost use Rattle.mixer.specs.Sounds.{played_more, played_after, played_on, sounds_played};

use limits::{SOUND_LINES, TRACK_PLACES};
use mixer::{Mixer, Track};
use scene::{Scene, SoundLine};

#[tactic(auto, unfolding(mixer::specs::Mixer::live_above))]
fn live_above(tracks: &[Track; TRACK_PLACES], line: usize) -> bool
    requires { line ≤ track_places }
    ensures { result ≡ live_above tracks.now line }
{
    if line == 0 {
        return true;
    }
    tracks[line - 1].live
}

#[tactic(auto, unfolding(mixer::specs::Sounds::played_more))]
fn played_more(line: &SoundLine, frames: usize, done: usize) -> usize
    requires { done ≤ line.now.count }
    ensures { result ≡ played_more line.now frames done }
{
    if line.count - done < frames {
        return line.count;
    }
    done + frames
}

#[tactic(auto, unfolding(mixer::specs::Sounds::played_after))]
fn played_after(
    tracks: &[Track; TRACK_PLACES],
    line: &SoundLine,
    frames: usize,
    done: usize,
) -> usize
    requires track_there { line.now.track ≤ track_places }
    requires played_within_count { done ≤ line.now.count }
    ensures { result ≡ played_after tracks.now line.now frames done }
{
    if live_above(tracks, line.track) {
        return played_more(line, frames, done);
    }
    done
}

#[tactic(auto, using(laws::proofs::laws::Loop::changed_zero, laws::proofs::laws::Loop::changed_here, laws::proofs::laws::Turns::turned), unfolding(mixer::specs::Sounds::played_on))]
fn advance_sounds(
    played: &mut [usize; SOUND_LINES],
    lines: &[SoundLine; SOUND_LINES],
    count: usize,
    tracks: &[Track; TRACK_PLACES],
    frames: usize,
)
    requires sounds_fit { count ≤ sound_lines }
    requires tracks_there { (k : ℕ) → k < count → (get_or lines.now k absent_sound_line).track ≤ track_places }
    requires played_within_count { (k : ℕ) → k < count → get_or played.old k 0 ≤ (get_or lines.now k absent_sound_line).count }
    ensures { played.new ≡ played_on lines.now count tracks.now frames played.old }
{
    for k in 0..count {
        played[k] = played_after(tracks, &lines[k], frames, played[k]);
    }
}

#[tactic(auto, unfolding(mixer::specs::Sounds::sounds_played))]
pub fn advance(mixer: &mut Mixer, scene: &Scene, frames: usize)
    requires sounds_fit { scene.now.sound_count ≤ sound_lines }
    requires tracks_there { (k : ℕ) → k < scene.now.sound_count → (get_or scene.now.sounds k absent_sound_line).track ≤ track_places }
    requires played_within_count { (k : ℕ) → k < scene.now.sound_count → get_or mixer.old.played k 0 ≤ (get_or scene.now.sounds k absent_sound_line).count }
    ensures { mixer.new ≡ sounds_played scene.now frames mixer.old }
{
    advance_sounds(
        &mut mixer.played,
        &scene.sounds,
        scene.sound_count,
        &mixer.tracks,
        frames,
    );
}
