// The flat record: words of its header, and the most of each list.
// Kept as it is: the definitions have LAST-LISTED and LAST-ID by name, and Rust has no constant of two types (IDS, ID_COUNT).
pub const HEADER: usize = 6;

pub const HEADER_BYTES: usize = 4 * HEADER;

pub const PUBLICS: usize = 64;

pub const NODES: usize = 16384;

// "4,096 of each other list": prover ids, definitions, equations.
pub const LISTED: usize = 4096;

pub const LAST_LISTED: u32 = LISTED as u32 - 1;

// "Ids to 65,535, next id to 65,536."
pub const IDS: u32 = 65536;

pub const LAST_ID: u32 = IDS - 1;

pub const ID_COUNT: usize = IDS as usize;
