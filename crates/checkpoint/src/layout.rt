// The lengths of the layout, as in specs/Checkpoint.antt, for the longer form of the head.
use octets::limits::TAG_LENGTH;

// The packet number's word, which the older form lacks.
pub const PACKET_LENGTH: usize = 4;

// All words of the head.
pub const WORDS_LENGTH: usize = 16;

// Behind them stands the previous checkpoint's tag.
pub const HEAD_LENGTH: usize = WORDS_LENGTH + TAG_LENGTH;

// A checkpoint with empty parts.
pub const EMPTY_LENGTH: usize = HEAD_LENGTH + TAG_LENGTH;
