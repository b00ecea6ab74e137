// Values that move in time: kira's parameter.rs.
#![tactic(auto)]

mod parameter;

pub use parameter::{Parameter, ParameterState};
