// Lines of Intel HEX: one is written to the front of a buffer, or read from the front of a text (document 02, A.1).
#![tactic(auto)]

pub mod read;
pub mod write;

pub const MARK: u8 = 0x3A;

pub const LINE_FEED: u8 = 0x0A;

pub const CARRIAGE_RETURN: u8 = 0x0D;

// The types of lines. They are numbers and no enum: line_of promises the type of any text (LineOf), and put_line_at takes any.
pub const DATA_LINE: u8 = 0;

pub const END_LINE: u8 = 1;

pub const UPPER_LINE: u8 = 4;

// How many addresses have the same upper 16 bits: 64 KiB.
pub const BOUNDARY: usize = 65_536;

// Where the digits of the data begin, the length of a line without data, and the same with its line feed.
pub const DATA_AT: usize = 9;

pub const LEAST_LINE: usize = 11;

pub const LEAST_FED: usize = 12;
