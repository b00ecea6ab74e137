// Room Desk Two's routine for its users: a scene file with its samples is rendered, or refused by a
// number.
#![tactic(auto)]

mod rendering;

pub use rendering::render;
