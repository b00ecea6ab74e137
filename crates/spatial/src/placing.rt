// How a track stands in the room.
use decibels::Decibels;

// A track without a line of its own is plain; one that has a line is heard at a level, or not at all
// where there is no listener.
#[derive(Clone, Copy)]
pub enum Placing {
    Plain,
    Unheard,
    Spatial(Decibels),
}
