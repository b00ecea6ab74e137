// The list of a scene's tables: names lines, line limits, columns with their ranges.
#![tactic(auto)]

pub mod column;
mod tables;

pub use tables::{
    CLOCKS, Field, HEAD, KIND_MAIN_VOLUME, KIND_PAUSE, KIND_RESUME, KIND_ROUTE_VOLUME,
    KIND_SEND_VOLUME, KIND_TRACK_VOLUME, LISTENER, LineRule, NAMES_BYTES, ONE, ORDERS, PLACINGS,
    ROUTES, SENDS, SOUNDS, TABLES, TRACKS, TWO, TableRule, ZERO, field_of, names_text, rule_of,
};
