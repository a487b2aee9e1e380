// The limits and lengths of documents 01 and 02, as in specs/Limits.antt. Lengths are in bytes; a word is 4.

// The ring.
pub const PAGES_LEAST: usize = 3;

pub const PAGES_LIMIT: usize = 32;

pub const SLOTS_LEAST: usize = 2;

pub const SLOTS_LIMIT: usize = 512;

pub const SLOT_LENGTH: usize = 16;

// The FRAM; its length is a multiple of FRAM_STEP.
pub const FRAM_LEAST: usize = 88;

pub const FRAM_LIMIT: usize = 262_144;

pub const FRAM_STEP: usize = 8;

// A checkpoint: each part's limit is also the least length of a state buffer.
pub const PART_LIMIT: usize = 32_768;

pub const RESTART_LIMIT: usize = 8;

pub const PACKET_LIMIT: usize = 1_073_741_823;

// The cipher: a key of AES-128 and one of AES-256; TEXT_LIMIT is that of a text and of associated data, sealed and opened alone.
pub const SHORT_KEY: usize = 16;

pub const LONG_KEY: usize = 32;

pub const NONCE_LENGTH: usize = 12;

pub const TAG_LENGTH: usize = 16;

pub const TEXT_LIMIT: usize = 65_536;

// Images as Intel HEX, and the data bytes of an exported line.
pub const IMAGE_LIMIT: usize = 262_144;

pub const DATA_PER_LINE: usize = 16;

// Recorded bench traces, in words.
pub const TRACE_LIMIT: usize = 4096;

// The rings of the bench: the most pages and slots; the least are the ring's own.
pub const SHAPE_PAGES_LIMIT: usize = 4;

pub const SHAPE_SLOTS_LIMIT: usize = 4;

// Entries of a chain of dumps.
pub const ENTRY_LENGTH: usize = 32;

pub const ENTRIES_LIMIT: usize = 64;

// Settings: the largest volume, the least and the largest alert delay in seconds, and the largest value of any kind.
pub const VOLUME_LIMIT: u32 = 15;

pub const DELAY_LEAST: u32 = 5;

pub const DELAY_LIMIT: u32 = 300;

pub const SETTING_LIMIT: u32 = 268_435_455;
