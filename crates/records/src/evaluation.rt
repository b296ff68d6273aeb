// Limits of evaluation: "19 over 256 nested `evaluate` calls, or over 256 variables looked up in turn by one match"; "127 applies 127 times".
pub const LEVELS: u32 = 256;

pub const LOOK_UPS: u32 = 256;

pub const MOST_COUNT: u32 = 127;
