// kira's frame.rs: an instant of stereo sound.
ghost use Rattle.std.specs.Prelude.{◌≡◌};
ghost use Rattle.frame.specs.Frame.{zero_frame, added, scaled, clamp, clamped};

use decibels::Amplitude;

#[derive(Clone, Copy)]
pub struct Frame {
    pub left: f32,
    pub right: f32,
}

impl Frame {
    pub fn zero() -> Frame
        ensures { result ≡ zero_frame }
    {
        Frame {
            left: 0.0,
            right: 0.0,
        }
    }

    #[tactic(auto, unfolding(crate::specs::Frame::added))]
    pub fn added(self, other: Frame) -> Frame
        ensures { result ≡ added self other }
    {
        Frame {
            left: self.left + other.left,
            right: self.right + other.right,
        }
    }

    #[tactic(auto, unfolding(crate::specs::Frame::scaled))]
    pub fn scaled(self, factor: Amplitude) -> Frame
        ensures { result ≡ scaled self factor }
    {
        let by = factor.0;
        Frame {
            left: self.left * by,
            right: self.right * by,
        }
    }

    // Held to -1.0..1.0, as the renderer does before it folds.
    #[tactic(auto, unfolding(crate::specs::Frame::clamped))]
    pub fn clamped(self) -> Frame
        ensures { result ≡ clamped self }
    {
        Frame {
            left: held(self.left),
            right: held(self.right),
        }
    }
}

fn held(x: f32) -> f32
    ensures { result ≡ clamp x }
{
    if x < -1.0 {
        return -1.0;
    }
    if 1.0 < x {
        return 1.0;
    }
    x
}
