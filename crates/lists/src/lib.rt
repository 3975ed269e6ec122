// The list of the notes sung: rows of note, first sample and length in a lent store, three numbers a row. The store is written and never read.

#![tactic(auto)]

ghost use Rattle.std.specs.Prelude.{◌≡◌, true, cond, ◌+◌, ◌-◌, ◌*◌, ◌≤◌, ◌<◌, eqb, length};
ghost use Rattle.whole.specs.Tests.{Decides};
ghost use Rattle.rules.specs.Rules.{no_note, take_limit};
ghost use Rattle.lists.specs.Lists.{sung_note, row, room, put, empty_listing, sheet, begun, listing_after, store_after, after_notes, PlaceIn, ListingIn};
ghost use Rattle.lists.specs.Folds.{after_stretch, Level, Four};
ghost use Rattle.lists.specs.Counting.{counted};
ghost use Rattle.lists.specs.Hushes.{hushed};

// The most rows of a list.
pub const MOST_ROWS: u32 = 4096;

// The numbers of a row.
pub const ROW: usize = 3;

// The place of a run that is left out.
pub const NO_PLACE: u32 = MOST_ROWS;

// The rows so far; the runs left out; the place and the first sample of the run that began last, 4096 where it has no place.
#[repr(C)]
#[derive(Clone, Copy)]
pub struct Listing {
    pub rows: u32,
    pub left: u32,
    pub place: u32,
    pub first: u32,
}

// Where a list begins.
pub fn begin() -> Listing
    ensures { result ≡ empty_listing }
{
    Listing {
        rows: 0,
        left: 0,
        place: NO_PLACE,
        first: 0,
    }
}

// The rows for which there is room in a store of so many numbers.
pub fn room(numbers: usize) -> u32
    ensures { result ≡ room numbers }
{
    (numbers / ROW).min(MOST_ROWS as usize) as u32
}

// Room for one row.
pub fn has_room(numbers: usize) -> bool
    ensures { Decides result (0 < room numbers) }
{
    ROW <= numbers
}

// The place of a row, or none.
fn place_right(rows: u32, place: u32) -> bool
    ensures { Decides result (PlaceIn rows place) }
{
    place < rows || place == NO_PLACE
}

// A listing that may be kept after so many samples.
pub fn right(l: Listing, count: u64) -> bool
    ensures { Decides result (ListingIn count l) }
{
    l.rows <= MOST_ROWS
        && u64::from(l.rows) + u64::from(l.left) <= count
        && u64::from(l.first) <= count
        && place_right(l.rows, l.place)
}

// The note of a sample, none without a period.
#[tactic(auto, using(std::proofs::lemmas::Bool::Decides::nat_tests))]
fn sung_at(period: u32, note: u32) -> u32
    ensures { result ≡ cond (eqb period 0) no_note note }
{
    if period == 0 { rules::NO_NOTE } else { note }
}

// The note of a sample in the list, by its tone.
#[tactic(auto, using(std::proofs::lemmas::Bool::Decides::nat_tests), unfolding(crate::specs::Lists::sung_note))]
pub fn sung(t: rules::Tone) -> u32
    ensures { result ≡ sung_note t }
{
    sung_at(t.period, t.note)
}

// A run begins.
#[tactic(auto, using(std::proofs::lemmas::Bool::Decides::nat_tests), unfolding(crate::specs::Lists::begun))]
fn begun(l: Listing, room: u32, at: u32) -> Listing
    requires { (l.rows < 4294967295) × (l.left < 4294967295) }
    ensures { result ≡ begun room at l }
{
    if l.rows < room {
        Listing {
            rows: l.rows + 1,
            place: l.rows,
            first: at,
            ..l
        }
    } else {
        Listing {
            left: l.left + 1,
            place: NO_PLACE,
            first: at,
            ..l
        }
    }
}

// The listing after a sample with this note, behind one with the last note.
#[tactic(auto, using(std::proofs::lemmas::Bool::Decides::nat_tests), unfolding(crate::specs::Lists::listing_after, crate::specs::Lists::begins))]
fn listed(l: Listing, room: u32, last: u32, at: u32, note: u32) -> Listing
    requires { (l.rows < 4294967295) × (l.left < 4294967295) }
    ensures { result ≡ listing_after room last at note l }
{
    if note == rules::NO_NOTE || note == last {
        l
    } else {
        begun(l, room, at)
    }
}

// Writes a row at a place.
fn put(store: &mut [u32], place: u32, note: u32, first: u32, count: u32)
    requires { 3 * place + 3 ≤ length store.old }
    ensures { store.new ≡ put store.old place (row note first count) }
{
    let at = ROW * place as usize;
    // Stays: by copy_from_slice of an array it takes 8 instructions more.
    store[at] = note;
    store[at + 1] = first;
    store[at + 2] = count;
}

// Writes the row of the run that goes on, as long as it is after so many samples, where the store has its place.
#[tactic(auto, using(std::proofs::lemmas::Bool::Decides::nat_tests), unfolding(crate::specs::Lists::store_after))]
fn write(l: Listing, count: u32, note: u32, store: &mut [u32])
    requires { l.first ≤ count }
    ensures { store.new ≡ store_after count note l store.old }
{
    if note != rules::NO_NOTE && l.place < room(store.len()) {
        put(store, l.place, note, l.first, count - l.first);
    }
}

// What a stretch of samples with one note makes of both, from one sample to before another.
fn stretch(l: Listing, last: u32, at: u32, to: u32, note: u32, store: &mut [u32]) -> Listing
    requires { (ListingIn at l) × (at < to) × (to ≤ take_limit) }
    ensures { sheet result store.new ≡ after_stretch last at to note (sheet l store.old) }
{
    let with = listed(l, room(store.len()), last, at, note);
    write(with, to, note, store);
    with
}

// How many numbers are this one: no way out of the loop, so that it runs in vectors.
pub fn count_of(values: &[u32], value: u32) -> u32
    requires { length values.now ≤ take_limit }
    ensures { result ≡ counted value values.now (length values.now) }
{
    let mut count = 0;
    for v in values {
        count += u32::from(*v == value);
    }
    count
}

// The samples have one note.
fn one_note(notes: &[u32]) -> bool
    requires { length notes.now ≤ take_limit }
    ensures { result ≡ true → Level notes.now (length notes.now) 0 (length notes.now) }
{
    !notes.is_empty() && count_of(notes, notes[0]) == notes.len() as u32
}

// Four samples have this note.
fn four(notes: &[u32], at: usize, note: u32) -> bool
    requires { at + 4 ≤ length notes.now }
    ensures { result ≡ true → Four notes.now at note }
{
    notes[at] == note && notes[at + 1] == note && notes[at + 2] == note && notes[at + 3] == note
}

// How far the stretch of samples with the note of this one goes, by steps of four.
// Stays: by one test a sample a block in which a note changes takes 1,500 instructions more.
fn fours(notes: &[u32], from: usize) -> usize
    requires { from < length notes.now }
    ensures { Level notes.now (length notes.now) from result }
{
    let mut to = from + 1;
    while 4 <= notes.len() - to && four(notes, to, notes[from]) {
        to += 4;
    }
    to
}

// Where it ends.
fn level(notes: &[u32], from: usize) -> usize
    requires { from < length notes.now }
    ensures { Level notes.now (length notes.now) from result }
{
    for to in fours(notes, from)..notes.len() {
        if notes[to] != notes[from] {
            return to;
        }
    }
    notes.len()
}

// Samples without a period have no note.
pub fn hush(notes: &mut [u32], periods: &[u32])
    requires { length notes.old ≡ length periods.now }
    ensures { notes.new ≡ hushed (length periods.now) periods.now notes.old }
{
    // Stays: by index, since a proof knows nothing of what a zip with iter_mut writes.
    for i in 0..notes.len() {
        notes[i] = sung_at(periods[i], notes[i]);
    }
}

// The notes of samples more, behind so many and the last note: the listing after them, and their rows in the store.
pub fn more(l: Listing, last: u32, notes: &[u32], count: u64, store: &mut [u32]) -> Listing
    requires { (count + length notes.now ≤ take_limit) × ListingIn count l }
    ensures { sheet result store.new ≡ after_notes last count (sheet l store.old) notes.now }
{
    let from = count as u32;
    if one_note(notes) {
        return stretch(l, last, from, from + notes.len() as u32, notes[0], store);
    }
    let mut listing = l;
    let mut before = last;
    let mut i = 0;
    // Stays: each turn takes a whole stretch, so no `for` goes by it.
    while i < notes.len() {
        let note = notes[i];
        let to = level(notes, i);
        listing = stretch(
            listing,
            before,
            from + i as u32,
            from + to as u32,
            note,
            store,
        );
        before = note;
        i = to;
    }
    listing
}
