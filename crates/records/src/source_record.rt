// The source record: words of its header, the most of each list, and of a name's bytes.
pub const HEADER: usize = 5;

pub const HEADER_BYTES: usize = 4 * HEADER;

pub const NAMES: usize = 512;

pub const PUBLICS: usize = 64;

pub const DEFINITIONS: usize = 512;

pub const EXPRESSIONS: usize = 512;

pub const NODES: usize = 2048;

pub const NAME_BYTES: usize = 64;

// The next link of the last one.
// Kept as it is: the definitions of a record (entry_for, link_fits, link_uses, link_of) speak of the word; an Option in a read link changes what they say.
pub const NO_LINK: usize = 4294967295;
