// What a save is given to follow, made from what the caller has.
ghost use Rattle.std.specs.Prelude.{◌≡◌, replicate};
ghost use Rattle.octets.specs.Limits.{tag_length};
ghost use Rattle.protocol.specs.Calls.{from_tag, from_session};
ghost use Rattle.protocol.specs.Operations.{from_wrong, no_session};
ghost use Rattle.jobs.specs.View.{view_session};
ghost use Rattle.saves.specs.View.{whole_tag, kept_tag, view_from};

use crate::types::{From, Given};
use gcm::tag_wrong;
use jobs::{Session, no_session};
use octets::array;
use octets::limits::TAG_LENGTH;

// A starting tag, 16 random bytes, for the unit's first checkpoint. Of any other length it is stop 3 of the save that gets it.
pub fn from_tag(tag: &[u8]) -> From
    ensures { (view_from result ≡ from_tag (whole_tag tag.now)) × (result.tag ≡ kept_tag tag.now) × (view_session result.session ≡ no_session) }
{
    let session = no_session();
    if tag_wrong(tag.len()) {
        let given = Given::WrongTag;
        return From {
            given,
            tag: [0u8; TAG_LENGTH],
            session,
        };
    }
    let given = Given::StartingTag;
    From {
        given,
        tag: array(tag),
        session,
    }
}

// The session that the last advance of a save or a power-up answered.
pub fn from_session(session: Session) -> From
    ensures { (view_from result ≡ from_session (view_session session)) × (result.tag ≡ replicate tag_length 0) × (view_session result.session ≡ view_session session) }
{
    let given = Given::Session;
    let tag = [0u8; TAG_LENGTH];
    From {
        given,
        tag,
        session,
    }
}

impl From {
    // Stop 3 of a starting tag.
    pub(crate) fn wrong(self) -> bool
        ensures { result ≡ from_wrong (view_from self) }
    {
        matches!(self.given, Given::WrongTag)
    }
}
