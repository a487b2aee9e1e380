// What a save is given: the checkpoint that it is to seal, and what that follows (document 02, A.7). specs/View.antt says what they stand for.
use jobs::Session;
use octets::limits::TAG_LENGTH;

// Which of the two it is given. A starting tag that is not 16 bytes is stop 3.
#[derive(Clone, Copy)]
pub enum Given {
    StartingTag,
    Session,
    WrongTag,
}

// What a checkpoint follows: no other, and then a starting tag stands for the tag of the one before, or that of a session. `tag` counts
// with StartingTag alone, and `session` with Session alone. `from_tag` and `from_session` make one.
// A struct and not an enum that holds one of both: the must-fail edit tag_kept_beside_a_session breaks what from_session says of `tag`.
#[derive(Clone, Copy)]
pub struct From {
    pub given: Given,
    pub tag: [u8; TAG_LENGTH],
    pub session: Session,
}

// The checkpoint that a save is to seal, under a key and a nonce: the packet number, and both parts.
#[derive(Clone, Copy)]
pub struct Draft<'a> {
    pub key: &'a [u8],
    pub nonce: &'a [u8],
    pub packet: usize,
    pub open_part: &'a [u8],
    pub secret: &'a [u8],
}
