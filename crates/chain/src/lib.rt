// Which dump came before which: the positions of unsorted entries in chain order (document 02, A.11).
#![tactic(auto)]

ghost use Rattle.std.specs.Prelude.{◌≡◌, ◌≤◌, ◌<◌, take, IfSome, is_none, unwrap_or};
ghost use Rattle.octets.specs.Limits.{tag_length, entries_limit};
ghost use Rattle.chain.specs.Chain.{count, tag_at, entry_with, not_first, own_twice, begins, first_entry, ends_early, order, entries_wrong, chain_order, ordered_as};

use octets::limits::{ENTRIES_LIMIT, ENTRY_LENGTH, TAG_LENGTH};
use octets::{copy, part, same};
use stops::Stop;

// The tag at an offset of entry i: 0 for its previous tag, TAG_LENGTH for its own.
fn tag_at(entries: &[u8], offset: usize, i: usize) -> &[u8]
    requires { (offset ≤ tag_length) × (i < count entries.now) }
    ensures { result.now ≡ tag_at entries.now offset i }
{
    part(entries, ENTRY_LENGTH * i + offset, TAG_LENGTH)
}

// The first entry that has a tag at an offset, if one has it.
fn entry_with(entries: &[u8], offset: usize, tag: &[u8]) -> Option<usize>
    requires { offset ≤ tag_length }
    ensures { (unwrap_or result (count entries.now) ≡ entry_with entries.now offset tag.now) × IfSome result (λ i. i < count entries.now) }
{
    (0..entries.len() / ENTRY_LENGTH).find(|i| same(tag_at(entries, offset, *i), tag))
}

// Whether entry i is not the first with its own tag.
fn not_first(entries: &[u8], i: usize) -> bool
    requires { i < count entries.now }
    ensures { result ≡ not_first entries.now i }
{
    entry_with(entries, TAG_LENGTH, tag_at(entries, TAG_LENGTH, i)) != Some(i)
}

// Whether two entries have one own tag.
fn own_twice(entries: &[u8]) -> bool
    ensures { result ≡ own_twice entries.now }
{
    (0..entries.len() / ENTRY_LENGTH).any(|i| not_first(entries, i))
}

// Whether the previous tag of entry i is none's own.
fn begins(entries: &[u8], i: usize) -> bool
    requires { i < count entries.now }
    ensures { result ≡ begins entries.now i }
{
    entry_with(entries, TAG_LENGTH, tag_at(entries, 0, i)).is_none()
}

// The first entry whose previous tag is none's own, if there is one.
fn first_entry(entries: &[u8]) -> Option<usize>
    ensures { (unwrap_or result (count entries.now) ≡ first_entry entries.now) × IfSome result (λ i. i < count entries.now) }
{
    (0..entries.len() / ENTRY_LENGTH).find(|i| begins(entries, *i))
}

// Walks the chain, each time to the entry that names the one before, and answers the order, in the first places; none if the chain ends early.
fn walk(entries: &[u8]) -> Option<[u8; ENTRIES_LIMIT]>
    requires { count entries.now ≤ entries_limit }
    ensures { (is_none result ≡ ends_early entries.now) × IfSome result (λ places. take (count entries.now) places ≡ order entries.now) }
{
    let mut places = [0u8; ENTRIES_LIMIT];
    let mut next = first_entry(entries);
    for place in &mut places[..entries.len() / ENTRY_LENGTH] {
        let i = next?;
        *place = i as u8;
        next = entry_with(entries, 0, tag_at(entries, TAG_LENGTH, i));
    }
    Some(places)
}

// Stop 21.
fn entries_wrong(entries: &[u8]) -> bool
    ensures { result ≡ entries_wrong entries.now }
{
    let n = entries.len();
    (n == 0) | (n > ENTRY_LENGTH * ENTRIES_LIMIT) | (n % ENTRY_LENGTH != 0)
}

// Writes the positions of the entries in chain order, a byte each, to the front of a buffer. For n entries it compares two tags 2 n² + 2 n times
// at the most: n (n + 1) / 2 times to see that own tags differ, n² for the first entry, and n (n + 1) / 2 + n for the walk, which comes to no entry
// twice, since own tags differ and none is before the first.
pub fn chain_order(entries: &[u8], positions: &mut [u8]) -> Result<(), Stop>
    ensures { ordered_as result positions.new ≡ chain_order entries.now positions.old }
{
    if entries_wrong(entries) {
        return Err(Stop::BadEntries);
    }
    let n = entries.len() / ENTRY_LENGTH;
    if positions.len() < n {
        return Err(Stop::BufferSize);
    }
    if own_twice(entries) {
        return Err(Stop::NoOrder);
    }
    let Some(places) = walk(entries) else {
        return Err(Stop::NoOrder);
    };
    copy(&places[..n], positions);
    Ok(())
}
