// Document 01's book ("Runs, cuts and the book"; and document 02, A.2): what was recorded last. It is told each start, each advance, and of each cut whether it left
// the place of the store blank; it never sees the memories.
use crate::values::{SLOTS, key, nonce, open_text, secret_text, starting_tag};
use octets::copy_at;
use stops::Stop;

// A checkpoint: the save that its parts are of, its packet number, its restarts, the number of its nonce, its tag, and its bytes in a half of
// the FRAM.
#[derive(Clone, Copy)]
pub struct Entry {
    pub save: usize,
    pub packet: u8,
    pub restarts: u8,
    pub nonce: usize,
    pub tag: [u8; 16],
    pub bytes: [u8; 64],
}

// A checkpoint that is not recorded yet, and its stores to come in their order: an erase, words, the record, an erase.
#[derive(Clone, Copy)]
pub struct Draft {
    pub entry: Entry,
    pub resumes: bool,
    pub erase: bool,
    pub words: usize,
    pub record: bool,
    pub after: bool,
}

// The entry is what was recorded last, if something was, and the draft what was begun since the last cut; `count` counts the records, and
// `owed` says whether the last one has left an erase to come.
#[derive(Clone, Copy)]
pub struct Book {
    pub entry: Option<Entry>,
    pub count: usize,
    pub owed: bool,
    pub draft: Option<Draft>,
}

#[derive(Clone, Copy)]
enum Store {
    Erase,
    Word,
    Record,
}

// The head of a checkpoint with two words of open part and two of secret part, the tag before and the open part (document 01, "A half of the
// FRAM", with document 02's word in front).
fn head(save: usize, packet: u8, restarts: u8, previous: &[u8; 16]) -> [u8; 40] {
    let mut bytes = [0u8; 40];
    let words = [
        0, 0, 0, packet, 0x40, 0, 0, 2, 0x80, 0, 0, 2, 0xC0, 0, 0, restarts,
    ];
    copy_at(&words, &mut bytes, 0);
    copy_at(previous, &mut bytes, 16);
    copy_at(&open_text(save), &mut bytes, 32);
    bytes
}

impl Entry {
    // What the first save follows: no packet, no restarts, and the starting tag in the place of a tag.
    fn none() -> Entry {
        Entry {
            save: 0,
            packet: 0,
            restarts: 0,
            nonce: 0,
            tag: starting_tag(),
            bytes: [0u8; 64],
        }
    }

    fn new(save: usize, packet: u8, restarts: u8, number: usize, previous: &[u8; 16]) -> Entry {
        let head = head(save, packet, restarts, previous);
        let mut secret = [0u8; 8];
        // nothing here is of a length that a seal refuses
        let tag = gcm::seal(
            &key(),
            &nonce(number),
            &head,
            &secret_text(save),
            &mut secret,
        )
        .unwrap_or([0u8; 16]);
        let mut bytes = [0u8; 64];
        copy_at(&head, &mut bytes, 0);
        copy_at(&secret, &mut bytes, 40);
        copy_at(&tag, &mut bytes, 48);
        Entry {
            save,
            packet,
            restarts,
            nonce: number,
            tag,
            bytes,
        }
    }
}

impl Draft {
    // The next store to come.
    fn next(&self) -> Option<Store> {
        if self.erase {
            Some(Store::Erase)
        } else if 0 < self.words {
            Some(Store::Word)
        } else if self.record {
            Some(Store::Record)
        } else if self.after {
            Some(Store::Erase)
        } else {
            None
        }
    }
}

impl Book {
    // Nothing recorded.
    pub fn empty() -> Book {
        Book {
            entry: None,
            count: 0,
            owed: false,
            draft: None,
        }
    }

    fn begin(&mut self, entry: Entry, resumes: bool) {
        self.draft = Some(Draft {
            entry,
            resumes,
            erase: self.owed,
            words: 16,
            record: true,
            after: (0 < self.count) & (self.count % SLOTS == 0),
        });
    }

    // A first save or a save that did not stop. A packet number above the entry's sets restarts to 0, else they carry over; the larger number
    // is stored.
    pub fn saved(&mut self, save: usize, packet: u8, number: usize) {
        let last = self.entry.unwrap_or(Entry::none());
        let restarts = if last.packet < packet {
            0
        } else {
            last.restarts
        };
        let entry = Entry::new(save, packet.max(last.packet), restarts, number, &last.tag);
        self.begin(entry, false);
    }

    // A power-up that did not stop.
    pub fn powered_up(&mut self, number: usize) {
        if let Some(last) = self.entry {
            let restarts = last.restarts.wrapping_add(1);
            let entry = Entry::new(last.save, last.packet, restarts, number, &last.tag);
            self.begin(entry, true);
        }
    }

    // The stop of a power-up: 6 where nothing is recorded, 13 at 8 restarts.
    pub fn stop(&self) -> Option<Stop> {
        match self.entry {
            None => Some(Stop::RingBlank),
            Some(entry) if entry.restarts == 8 => Some(Stop::RestartLimit),
            Some(_) => None,
        }
    }

    fn next(&self) -> Option<Store> {
        self.draft.as_ref().and_then(|draft| draft.next())
    }

    // Whether no store is to come.
    pub fn is_done(&self) -> bool {
        self.next().is_none()
    }

    // An advance that did not stop takes the first store off.
    pub fn advanced(&mut self) {
        let next = self.next();
        let (Some(draft), Some(store)) = (&mut self.draft, next) else {
            return;
        };
        match store {
            Store::Erase => {
                if draft.erase {
                    draft.erase = false;
                } else {
                    draft.after = false;
                }
                self.owed = false;
            }
            Store::Word => draft.words = draft.words.saturating_sub(1),
            Store::Record => {
                draft.record = false;
                self.entry = Some(draft.entry);
                self.count = self.count.saturating_add(1);
                self.owed = draft.after;
            }
        }
    }

    // A cut between two calls. Every cut drops the draft.
    pub fn cut(&mut self) {
        self.draft = None;
    }

    // A cut into the first store, which left its place blank or not. It counts as that store if it left the page blank, or the record whole; a
    // word counts as nothing.
    pub fn cut_into(&mut self, blank: bool) {
        let whole = match self.next() {
            Some(Store::Erase) => blank,
            Some(Store::Record) => !blank,
            Some(Store::Word) | None => false,
        };
        if whole {
            self.advanced();
        }
        self.cut();
    }
}
