// The stops of documents 01 and 02, by name, and the trying of conditions in order.
#![tactic(auto)]

ghost use Rattle.std.specs.Prelude.{◌≡◌};
ghost use Rattle.stops.specs.Stops.{then_stop};
ghost use Rattle.stops.specs.View.{stop_number, check_number};

// Why an operation stopped: document 01's numbers 1 to 14, and document 02's from 15 on.
#[derive(Clone, Copy)]
pub enum Stop {
    RingSize,
    FramSize,
    KeyNonceTagSize,
    BufferSize,
    RingInUse,
    RingBlank,
    RingUnreadable,
    StaleSession,
    PagePending,
    NonceUsed,
    BadHead,
    TagDiffers,
    RestartLimit,
    BadJob,
    BadLine,
    BadChecksum,
    DataMisplaced,
    PacketTooLarge,
    NotFirstSave,
    BadTrace,
    BadEntries,
    NoOrder,
    BadList,
    BadKinds,
    BadValue,
    PastLastShape,
}

// The papers' number of a stop.
pub fn stop_number(stop: Stop) -> u32
    ensures { result ≡ stop_number stop }
{
    match stop {
        Stop::RingSize => 1,
        Stop::FramSize => 2,
        Stop::KeyNonceTagSize => 3,
        Stop::BufferSize => 4,
        Stop::RingInUse => 5,
        Stop::RingBlank => 6,
        Stop::RingUnreadable => 7,
        Stop::StaleSession => 8,
        Stop::PagePending => 9,
        Stop::NonceUsed => 10,
        Stop::BadHead => 11,
        Stop::TagDiffers => 12,
        Stop::RestartLimit => 13,
        Stop::BadJob => 14,
        Stop::BadLine => 15,
        Stop::BadChecksum => 16,
        Stop::DataMisplaced => 17,
        Stop::PacketTooLarge => 18,
        Stop::NotFirstSave => 19,
        Stop::BadTrace => 20,
        Stop::BadEntries => 21,
        Stop::NoOrder => 22,
        Stop::BadList => 23,
        Stop::BadKinds => 24,
        Stop::BadValue => 25,
        Stop::PastLastShape => 26,
    }
}

// The trying of an operation's conditions, one behind the other: `Ok(()).stop_if(.., ..).stop_if(.., ..)`.
pub trait StopIf {
    fn stop_if(self, wrong: bool, stop: Stop) -> Self;
}

impl StopIf for Result<(), Stop> {
    // The stop if `wrong`, where the conditions before have passed.
    fn stop_if(self, wrong: bool, stop: Stop) -> Result<(), Stop>
        ensures { check_number result ≡ then_stop (check_number self) (stop_number stop) wrong }
    {
        match self {
            Err(first) => Err(first),
            Ok(()) => { if wrong { Err(stop) } else { Ok(()) } }
        }
    }
}
