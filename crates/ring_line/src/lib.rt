// The state of a ring as a line of text, as the program ringview writes it (document 01, "Bench values").
#![tactic(auto)]

ghost use Rattle.std.specs.Prelude.{◌≡◌, false, [], ◌+◌, ◌≤◌, ◌<◌, length, take};
ghost use Rattle.stops.specs.View.{stop_number};
ghost use Rattle.ring.specs.Ring.{ring_wrong, read_ring};
ghost use Rattle.ring.specs.View.{newest};
ghost use Rattle.ring_line.specs.Text.{digit, decimal, refused_text, refused_line, half_text, place_text, newest_text, ring_text};
ghost use Rattle.ring_line.specs.Line.{line_limit, Added, Short};

use octets::copy_at;
use ring::{Newest, Ring, half_named, slot_at};
use stops::{Stop, stop_number};

// The first `length` bytes are the line; the others are zeros. A buffer with its length, as libraries have no heap; specs/Line.antt names both.
#[derive(Clone, Copy)]
pub struct Line {
    pub bytes: [u8; 40],
    pub length: usize,
}

impl Line {
    fn empty() -> Line
        ensures { Short [] result 0 }
    {
        Line {
            bytes: [0; 40],
            length: 0,
        }
    }

    // The line's text.
    pub fn as_bytes(&self) -> &[u8]
        requires { self.now.length ≤ line_limit }
        ensures { result.now ≡ take self.now.length self.now.bytes }
    {
        &self.bytes[..self.length]
    }

    // The line with a text behind it.
    fn add(mut self, text: &[u8]) -> Line
        requires { self.length + length text.now ≤ line_limit }
        ensures { Added self text.now result }
    {
        let at = self.length;
        copy_at(text, &mut self.bytes, at);
        self.length += text.len();
        self
    }

    // The line with a number behind it. Its digits are made by hand, as libraries have no formatting.
    fn add_decimal(self, n: usize) -> Line
        requires { (n < 1000) × (self.length + 3 ≤ line_limit) }
        ensures { Added self (decimal n) result × (length (decimal n) ≤ 3) }
    {
        if n < 10 {
            return self.add(&[digit(n)]);
        }
        if n < 100 {
            return self.add(&[digit(n / 10), digit(n % 10)]);
        }
        self.add(&[digit(n / 100), digit(n / 10 % 10), digit(n % 10)])
    }

    // The line with a half's letter behind it.
    fn add_half(self, half: usize) -> Line
        requires { self.length + 7 ≤ line_limit }
        ensures { Added self (half_text half) result × (length (half_text half) ≡ 7) }
    {
        if half == 0 {
            return self.add(b" half A");
        }
        self.add(b" half B")
    }
}

fn digit(d: usize) -> u8
    requires { d < 10 }
    ensures { result ≡ digit d }
{
    b'0' + d as u8
}

// The line of a stop, by its number.
fn refused(n: u32) -> Line
    requires { n < 1000 }
    ensures { Short (refused_text n) result 11 }
{
    Line::empty().add(b"refused ").add_decimal(n as usize)
}

// The line of a stop with a line feed.
pub fn refused_line(stop: Stop) -> Line
    ensures { Short (refused_line (stop_number stop)) result line_limit }
{
    refused(stop_number(stop)).add(b"\n")
}

// The newest record's place, up to the pending page.
fn place(page: usize, slot: usize, half: usize) -> Line
    requires { (page < 1000) × (slot < 1000) }
    ensures { Short (place_text page slot half) result 33 }
{
    let line = Line::empty().add(b"page ").add_decimal(page);
    let line = line.add(b" slot ").add_decimal(slot);
    line.add_half(half).add(b" pending ")
}

// The line of a ring of right sizes, without its end.
fn found(ring: &Ring) -> Line
    ensures { Short (newest_text ring.now.bytes.now ring.now.slots (read_ring ring.now.bytes.now ring.now.pages ring.now.slots)) result 37 }
{
    match ring.read() {
        Newest::Blank => Line::empty().add(b"blank"),
        Newest::Unreadable => refused(stop_number(Stop::RingUnreadable)),
        Newest::At { page, slot } => {
            let half = half_named(slot_at(ring.bytes, ring.slots, page, slot));
            place(page, slot, half).add(b"none")
        }
        Newest::AtPending { page, pending } => {
            let half = half_named(slot_at(ring.bytes, ring.slots, page, 0));
            place(page, 0, half).add_decimal(pending)
        }
    }
}

// The state of a ring of `pages` pages of `slots` slots in words, with a line feed.
pub fn ring_line(ring: &[u8], pages: usize, slots: usize) -> Line
    ensures { Short (ring_text pages slots ring.now) result line_limit }
{
    match Ring::new(ring, pages, slots) {
        Err(stop) => refused_line(stop),
        Ok(ring) => found(&ring).add(b"\n"),
    }
}
