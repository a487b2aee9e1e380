// The words of a recorded bench trace, and which traces are run (document 02, A.4).
#![tactic(auto)]

ghost use Rattle.std.specs.Prelude.{◌≡◌, ◌<◌, false, MatchOption};
ghost use Rattle.octets.specs.Word.{top_kind};
ghost use Rattle.trace_words.specs.Words.{is_cut, word_wrong, words_wrong, words_of, trace_wrong};
ghost use Rattle.trace_words.specs.View.{kind_number};

use octets::limits::TRACE_LIMIT;
use octets::{top_kind, word_at};

// What a word is: an operation, or a cut.
#[derive(Clone, Copy, PartialEq, Eq)]
pub enum Kind {
    FirstSave,
    Save,
    PowerUp,
    Cut,
}

// The kind of a word. Not every number is that of a kind.
pub fn word_kind(w: u32) -> Option<Kind>
    ensures { MatchOption result (0 < top_kind w → 4 < top_kind w) (λ k. top_kind w ≡ kind_number k) }
{
    match top_kind(w) {
        1 => Some(Kind::FirstSave),
        2 => Some(Kind::Save),
        3 => Some(Kind::PowerUp),
        4 => Some(Kind::Cut),
        _ => None,
    }
}

pub fn is_cut(w: u32) -> bool
    ensures { result ≡ is_cut w }
{
    word_kind(w) == Some(Kind::Cut)
}

// Whether a word is wrong; `after_cut` says whether the word before it is a cut.
#[tactic(auto, unfolding(crate::specs::Words::word_wrong))]
fn word_wrong(after_cut: bool, w: u32) -> bool
    ensures { result ≡ word_wrong after_cut w }
{
    match word_kind(w) {
        Some(Kind::Cut) => after_cut,
        Some(_) => false,
        None => true,
    }
}

// Whether a word of the trace is wrong, or the last one is a cut.
fn words_wrong(trace: &[u8]) -> bool
    ensures { result ≡ words_wrong false (words_of trace.now) }
{
    let mut after_cut = false;
    for word in trace.chunks_exact(4) {
        let w = word_at(word, 0);
        if word_wrong(after_cut, w) {
            return true;
        }
        after_cut = is_cut(w);
    }
    after_cut
}

// Stop 20.
#[tactic(auto, unfolding(crate::specs::Words::trace_wrong))]
pub fn trace_wrong(trace: &[u8]) -> bool
    ensures { result ≡ trace_wrong trace.now }
{
    let n = trace.len();
    (n % 4 != 0) | (4 * TRACE_LIMIT < n) | words_wrong(trace)
}
