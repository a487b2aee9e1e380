// The unit: the keeper's calls, each told to the book, and what they answer held against it.
use demo_book::Book;
use demo_book::values::{
    HALF, PAGES, PART, SLOTS, key, nonce, open_text, packet, record, secret_text, starting_tag,
};
use keeper::{
    Draft, From, Job, Memories, Phase, Progress, Session, advance_lent, from_session, from_tag,
    no_job, open_part, power_up,
};
use octets::same;
use stops::{Stop, stop_number};

// `session` is what the last job handed out, if one has ended, `saves` and `starts` are the numbers of the last save and of the last nonce,
// `stop` is the last start's, if it stopped, `agrees` says whether all that was answered since the last cut was the book's, and `erased`
// counts pages.
#[derive(Clone, Copy)]
pub struct Unit {
    pub session: Option<Session>,
    pub job: Job,
    pub book: Book,
    pub saves: usize,
    pub starts: usize,
    pub stop: Option<Stop>,
    pub agrees: bool,
    pub erased: usize,
}

// The unit's memories, as the keeper's calls read them.
pub fn memories<'r, 'f>(ring: &'r [u8], fram: &'f [u8]) -> Memories<'r, 'f> {
    Memories {
        pages: PAGES,
        slots: SLOTS,
        ring,
        fram,
    }
}

// Whether an advance said what the book, told of it, expects.
fn as_expected(said: Result<Progress, Stop>, book: &Book) -> bool {
    let resumes = book.draft.is_some_and(|draft| draft.resumes);
    match said {
        Ok(Progress::GoingOn) => !book.is_done(),
        Ok(Progress::Saved(_)) => book.is_done() & !resumes,
        Ok(Progress::Restored(_)) => book.is_done() & resumes,
        Err(_) => false,
    }
}

// Whether some bytes stand at an offset of a memory.
fn stands_at(bytes: &[u8], memory: &[u8], at: usize) -> bool {
    memory
        .get(at..)
        .is_some_and(|there| there.starts_with(bytes))
}

// Whether the memories, the open part of the newest checkpoint in them and the state are as the book has them. Records go round the slots, and
// to A and B in turn.
fn stands(book: &Book, memories: &Memories<'_, '_>, state: &[u8]) -> bool {
    let Some(entry) = book.entry else {
        return false;
    };
    let i = (book.count % 6 + 5) % 6;
    stands_at(&record(nonce(entry.nonce), i), memories.ring, i * 16)
        & stands_at(&entry.bytes, memories.fram, i % 2 * HALF)
        & stands_at(&secret_text(entry.save), state, 0)
        & same(open_part(memories, &key()), &open_text(entry.save))
}

impl Unit {
    // A unit that has recorded nothing.
    pub fn new() -> Unit {
        Unit {
            session: None,
            job: no_job(),
            book: Book::empty(),
            saves: 0,
            starts: 0,
            stop: None,
            agrees: true,
            erased: 0,
        }
    }

    // A new unit in the place of this one, which goes on with its numbers.
    pub fn replace(&mut self) {
        self.session = None;
        self.book = Book::empty();
    }

    // What a save follows: a starting tag where nothing is recorded, and else the session.
    fn follows(&self) -> From {
        match self.session {
            Some(session) => from_session(session),
            None => from_tag(&starting_tag()),
        }
    }

    // Begins a save.
    pub fn begin_save(&mut self, memories: &Memories<'_, '_>, staging: &mut [u8]) {
        self.saves = self.saves.saturating_add(1);
        self.starts = self.starts.saturating_add(1);
        let draft = Draft {
            key: &key(),
            nonce: &nonce(self.starts),
            packet: packet(self.saves) as usize,
            open_part: &open_text(self.saves),
            secret: &secret_text(self.saves),
        };
        match self.follows().save(memories, &draft, staging) {
            Ok(job) => {
                self.job = job;
                self.stop = None;
                self.book.saved(self.saves, packet(self.saves), self.starts);
            }
            Err(stop) => {
                self.job = no_job();
                self.stop = Some(stop);
                self.agrees = false;
            }
        }
    }

    // Begins a power-up with the nonce of a number.
    fn begin_with(
        &mut self,
        number: usize,
        memories: &Memories<'_, '_>,
        staging: &mut [u8],
        state: &mut [u8],
    ) {
        let expected = self.book.stop();
        match power_up(memories, &key(), &nonce(number), staging, state) {
            Ok(powered) => {
                self.job = powered.job;
                self.stop = None;
                self.agrees &= expected.is_none() & (powered.length == PART);
                self.book.powered_up(self.starts);
            }
            Err(stop) => {
                self.job = no_job();
                self.stop = Some(stop);
                self.agrees &= expected.is_some_and(|e| stop_number(e) == stop_number(stop));
            }
        }
    }

    // Begins a power-up.
    pub fn begin_power_up(
        &mut self,
        memories: &Memories<'_, '_>,
        staging: &mut [u8],
        state: &mut [u8],
    ) {
        self.starts = self.starts.saturating_add(1);
        self.begin_with(self.starts, memories, staging, state);
    }

    // A power-up with the nonce of the newest record, which is used: a worn unit stops with 13 all the same.
    pub fn try_used_nonce(
        &mut self,
        memories: &Memories<'_, '_>,
        staging: &mut [u8],
        state: &mut [u8],
    ) {
        let used = self.book.entry.map_or(0, |entry| entry.nonce);
        self.begin_with(used, memories, staging, state);
    }

    fn advance(&mut self, ring: &mut [u8], fram: &mut [u8], staging: &[u8]) {
        if matches!(self.job.phase, Phase::EraseFirst(_) | Phase::EraseAfter(_)) {
            self.erased = self.erased.saturating_add(1);
        }
        let said = advance_lent(&mut self.job, PAGES, SLOTS, ring, fram, staging);
        self.book.advanced();
        self.agrees &= as_expected(said, &self.book);
        if let Ok(Progress::Saved(session) | Progress::Restored(session)) = said {
            self.session = Some(session);
        }
    }

    // A number of advances, or as many as there are stores to come.
    pub fn run(&mut self, advances: usize, ring: &mut [u8], fram: &mut [u8], staging: &[u8]) {
        for _ in 0..advances {
            if self.book.is_done() {
                return;
            }
            self.advance(ring, fram, staging);
        }
    }

    // Holds what a power-up left against the book.
    pub fn compare(&mut self, memories: &Memories<'_, '_>, state: &[u8]) {
        self.agrees &= stands(&self.book, memories, state);
    }

    // The packet number of the checkpoint recorded last.
    pub fn packet(&self) -> u8 {
        self.book.entry.map_or(0, |entry| entry.packet)
    }

    // The restarts of the checkpoint recorded last.
    pub fn restarts(&self) -> u8 {
        self.book.entry.map_or(0, |entry| entry.restarts)
    }
}
