// The two sample buffers that sounds play from: the house's and the visitor's.
#![tactic(auto)]

ghost use Rattle.std.specs.Prelude.{◌≡◌, ⊤};
ghost use Rattle.recordings.specs.Recordings.{recordings, recording};

use std::marker::Model;

// Which of them a sound is from.
pub const HOUSE: usize = 0;

pub const VISITOR: usize = 1;

// Both of them, as one value.
#[derive(Drop)]
pub struct Recordings<'a> {
    house: &'a [f32],
    visitor: &'a [f32],
}

impl<'a> Model for Recordings<'a> {
    ghost Value = { Rattle.recordings.specs.Recordings.Recordings };

    ghost view = { λ r. recordings r.house.now r.visitor.now };

    ghost invariant = { λ _. ⊤ };
}

impl<'a> Recordings<'a> {
    pub fn new(house: &'a [f32], visitor: &'a [f32]) -> Recordings<'a>
        ensures { result ≡ recordings house.now visitor.now }
    {
        Recordings {
            house: house,
            visitor: visitor,
        }
    }

    // The one that a sound is from.
    #[tactic(auto, unfolding(crate::specs::Recordings::recording))]
    pub fn recording(&self, from: usize) -> &'a [f32]
        ensures { result.now ≡ recording self.now from }
    {
        if from == HOUSE {
            return self.house;
        }
        self.visitor
    }
}
