// Which column of a table is which, counted from 0, and how many each table has.

pub const HEAD_RATE: usize = 0;

pub const HEAD_CHANNELS: usize = 1;

pub const HEAD_BUFFER: usize = 2;

pub const HEAD_BLOCK: usize = 3;

pub const HEAD_BLOCKS: usize = 4;

pub const HEAD_VOLUME: usize = 5;

pub const HEAD_COLUMNS: usize = 6;

pub const CLOCK_UNIT: usize = 0;

pub const CLOCK_SPEED: usize = 1;

pub const CLOCK_TICKING: usize = 2;

pub const CLOCK_COLUMNS: usize = 3;

pub const TRACK_PARENT: usize = 0;

pub const TRACK_VOLUME: usize = 1;

pub const TRACK_COLUMNS: usize = 2;

pub const SEND_VOLUME: usize = 0;

pub const SEND_COLUMNS: usize = 1;

pub const ROUTE_TRACK: usize = 0;

pub const ROUTE_SEND: usize = 1;

pub const ROUTE_VOLUME: usize = 2;

pub const ROUTE_COLUMNS: usize = 3;

pub const SOUND_TRACK: usize = 0;

pub const SOUND_FIRST: usize = 1;

pub const SOUND_COUNT: usize = 2;

pub const SOUND_FROM: usize = 3;

pub const SOUND_COLUMNS: usize = 4;

pub const LISTENER_X: usize = 0;

pub const LISTENER_Y: usize = 1;

pub const LISTENER_Z: usize = 2;

pub const LISTENER_COLUMNS: usize = 3;

pub const PLACING_TRACK: usize = 0;

pub const PLACING_X: usize = 1;

pub const PLACING_Y: usize = 2;

pub const PLACING_Z: usize = 3;

pub const PLACING_NEAR: usize = 4;

pub const PLACING_FAR: usize = 5;

pub const PLACING_COLUMNS: usize = 6;

pub const ORDER_BLOCK: usize = 0;

pub const ORDER_KIND: usize = 1;

pub const ORDER_INDEX: usize = 2;

pub const ORDER_VOLUME: usize = 3;

pub const ORDER_CLOCK: usize = 4;

pub const ORDER_WHEN: usize = 5;

pub const ORDER_PART: usize = 6;

pub const ORDER_MILLIS: usize = 7;

pub const ORDER_EASING: usize = 8;

pub const ORDER_POWER: usize = 9;

pub const ORDER_COLUMNS: usize = 10;
