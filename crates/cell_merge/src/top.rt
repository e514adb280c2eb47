//! The best entries of two lists, in place.

ghost use Rattle.std.specs.Prelude.{◌≡◌, ℕ, ◌+◌, ◌*◌, ◌^◌, ◌<◌, ◌≤◌, List, ◌∷◌, ◌++◌, min, length, slice_index, slice_set, take, if◌then◌else◌};
ghost use Rattle.cell_merge.specs.Entries.{before, late_insertion, ordered, entries_of, words_of};
ghost use Rattle.cell_merge.specs.declared.entry.Entry.{Entry};
ghost use Rattle.cell_merge.specs.Triples.{entry_at, kept, remainder, triples, with_entry};

use crate::Entry;

/// Whether an entry comes before another.
fn comes_before(x: Entry, y: Entry) -> bool
    ensures { result ≡ before x y }
{
    y.sort < x.sort || (x.sort == y.sort && x.place < y.place)
}

fn read_entry(words: &[u64], i: usize) -> Entry
    requires { 3 * i + 3 ≤ length words.now }
    ensures { result ≡ entry_at words.now i }
{
    Entry {
        place: words[3 * i],
        sort: words[3 * i + 1],
        show: words[3 * i + 2],
    }
}

pub(crate) fn write_entry(words: &mut [u64], i: usize, entry: Entry)
    requires { 3 * i + 3 ≤ length words.old }
    ensures { words.new ≡ with_entry words.old i entry }
{
    words[3 * i] = entry.place;
    words[3 * i + 1] = entry.sort;
    words[3 * i + 2] = entry.show;
}

/// Writes what is to stand at i, and gives what is to stand behind it. Once one was placed, each moves down by one.
fn push_down(words: &mut [u64], i: usize, moved: Entry, placed: bool) -> (Entry, bool)
    requires { 3 * i + 3 ≤ length words.old }
    ensures entries { (xs : List Entry) → entry_at words.new i ∷ remainder result.1 result.0 xs ≡ remainder placed moved (entry_at words.old i ∷ xs) }
    ensures low { (j : ℕ) → j < 3 * i → slice_index words.new j ≡ slice_index words.old j }
    ensures high { (j : ℕ) → 3 * i + 3 ≤ j → slice_index words.new j ≡ slice_index words.old j }
{
    let here = read_entry(words, i);
    if placed {
        write_entry(words, i, moved);
        return (here, true);
    }
    if comes_before(moved, here) {
        write_entry(words, i, moved);
        return (here, true);
    }
    (moved, false)
}

/// Puts an entry into the first `used`, behind those that it does not come before; of more than `most` the last is lost.
fn insert(words: &mut [u64], most: usize, used: usize, entry: Entry) -> usize
    requires length { length words.old ≡ 3 * most }
    requires used { used ≤ most }
    ensures count { result ≡ min most (used + 1) }
    ensures entries { triples result words.new ≡ take most (late_insertion before entry (triples used words.old)) }
    ensures rest { (j : ℕ) → 3 * (used + 1) ≤ j → slice_index words.new j ≡ slice_index words.old j }
{
    let mut moved = entry;
    let mut placed = false;
    for i in 0..used {
        (moved, placed) = push_down(words, i, moved, placed);
    }
    if used == most {
        return most;
    }
    write_entry(words, used, moved);
    used + 1
}

/// Takes in an entry, unless its place is 0.
fn take_in(words: &mut [u64], most: usize, used: usize, entry: Entry) -> usize
    requires length { length words.old ≡ 3 * most }
    requires used { used ≤ most }
    ensures count { (result ≤ most) × (result ≤ used + 1) }
    ensures entries { triples result words.new ≡ take most (kept entry (triples used words.old)) }
    ensures rest { (j : ℕ) → 3 * (used + 1) ≤ j → slice_index words.new j ≡ slice_index words.old j }
{
    if entry.place == 0 {
        return used;
    }
    insert(words, most, used, entry)
}

/// Leaves the first `most` of the entries of both lists.
pub(crate) fn merge_top(most: usize, into: &mut [u64], from: &[u64])
    requires into { length into.old ≡ 3 * most }
    requires from { length from.now ≡ 3 * most }
    ensures { into.new ≡ words_of most (ordered before (entries_of into.old ++ entries_of from.now)) }
{
    let mut used = 0;
    for i in 0..most {
        let entry = read_entry(into, i);
        used = take_in(into, most, used, entry);
    }
    for j in 0..most {
        let entry = read_entry(from, j);
        used = take_in(into, most, used, entry);
    }
    into[3 * used..].fill(0);
}
