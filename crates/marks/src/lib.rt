// Marks: which sets changed of late. They tell what may be passed over, and nothing is proved of them.
#![tactic(auto)]

ghost use Rattle.std.specs.Prelude.{◌<◌};

use read_text::byte_at;
use store::Store;

// No name among the parts, which are bytes, so that a loop takes many at a time; and the number that all channels' sets have among those of the names.
pub const NONE: u8 = 255;

pub const COMMS: u8 = Store::ROWS as u8;
// A mark for each name's set, and one for those of the channels; for each member of a set; for each send; for each row and each row in its set.
pub const MEMBERS: usize = Store::ROWS + 1;

pub const SENDS: usize = MEMBERS + Store::MEMBERS;

pub const SEEN: usize = SENDS + Store::ROWS;

pub const SIZE: usize = SEEN + Store::ROWS * Store::ROWS;
// The names whose sets make up what a value row stands for, at most two for each.
pub const PARTS: usize = 2 * Store::ROWS;

// The kinds of rows that are told apart here, as the store has them: the value rows that hold names are of the kinds from SEND to FUN, and from SYNC on a row asks something of the rows in a set.
// They are bytes and no enum, since they are compared with a row's byte where most time goes.
pub const SEND: u8 = 4;

pub const RECV: u8 = 5;

pub const PAIR: u8 = 6;

pub const FUN: u8 = 9;

pub const SYNC: u8 = 11;

pub const CASE: u8 = 14;

pub const APPLY: u8 = 15;

// Where the bytes of a row stand: its kind, its name, and from ARGUMENTS on the numbers of its form.
pub const KIND: usize = 0;

pub const NAME: usize = 1;

pub const ARGUMENTS: usize = 3;

// Byte i of row r.
pub fn cell(store: &[u8], r: u8, i: usize) -> u8
    requires { i < 8 }
{
    byte_at(store, r as usize * Store::ROW_SIZE + i)
}

// Sets a byte, if there is such.
pub fn put(marks: &mut [u8], at: usize, value: u8) {
    if let Some(mark) = marks.get_mut(at) {
        *mark = value;
    }
}

// The first name of a value row: for a function, that of its result.
fn part_one(store: &[u8], names: &[u8], k: u8) -> u8 {
    match cell(store, k, KIND) {
        SEND..FUN => cell(store, k, ARGUMENTS),
        FUN => byte_at(names, cell(store, k, ARGUMENTS + 2) as usize),
        _ => NONE,
    }
}

// The second name of a send or a pair; what a receive gives changes with the sets of the channels.
fn part_two(store: &[u8], k: u8) -> u8 {
    match cell(store, k, KIND) {
        SEND | PAIR => cell(store, k, ARGUMENTS + 1),
        RECV => COMMS,
        _ => NONE,
    }
}

// The names of all value rows.
pub fn parts_of(store: &[u8], rows: u8, names: &[u8]) -> [u8; PARTS] {
    let mut parts = [NONE; PARTS];
    for k in 0..rows {
        put(&mut parts, k as usize, part_one(store, names, k));
        put(&mut parts, Store::ROWS + k as usize, part_two(store, k));
    }
    parts
}

// A mark, new where name n is one of two.
fn marked(p: u8, q: u8, n: u8, old: u8) -> u8 {
    if p == n || q == n { 2 } else { old }
}

// Marks that the set of name n changed, and so the rows that it is a part of.
pub fn note(marks: &mut [u8], parts: &[u8], n: u8) {
    if COMMS < n {
        return;
    }
    put(marks, n as usize, 2);
    if marks.len() < SIZE || parts.len() < PARTS {
        return;
    }
    for k in 0..Store::ROWS {
        let p = parts[k];
        let q = parts[Store::ROWS + k];
        let member = marks[MEMBERS + 1 + k];
        marks[MEMBERS + 1 + k] = marked(p, q, n, member);
        let send = marks[SENDS + k];
        marks[SENDS + k] = marked(p, q, n, send);
    }
}

// Marks all names and members.
pub fn start(marks: &mut [u8]) {
    if let Some(recent) = marks.get_mut(..SENDS) {
        recent.fill(1);
    }
}

// Makes the marks of names and members older, one less down to 0: those of the round before last are gone.
pub fn age(marks: &mut [u8]) {
    if let Some(recent) = marks.get_mut(..SENDS) {
        for mark in recent {
            *mark = mark.saturating_sub(1);
        }
    }
}

// The second number, if the first is not 0.
fn both(a: u8, b: u8) -> u8 {
    if a == 0 { 0 } else { b }
}

// Whether the set of name n changed.
fn changed(marks: &[u8], n: u8) -> bool {
    0 < byte_at(marks, n as usize)
}

// Whether row r asks something anew of all members: the argument of an apply changed, or the result of a case's branch.
pub fn asks_all(store: &[u8], names: &[u8], marks: &[u8], r: u8) -> bool {
    match cell(store, r, KIND) {
        CASE => {
            let left = byte_at(names, cell(store, r, ARGUMENTS + 2) as usize);
            let right = byte_at(names, cell(store, r, ARGUMENTS + 4) as usize);
            changed(marks, left) || changed(marks, right)
        }
        APPLY.. => changed(marks, cell(store, r, ARGUMENTS + 1)),
        _ => false,
    }
}

// A mark of row k, if it is a receive as is asked, or none.
fn mark_of(part: u8, receives: bool, mark: u8) -> u8 {
    if (part == COMMS) == receives { mark } else { 0 }
}

// Whether row r may ask anything anew of the receives in its set, or of the other rows. Every row is looked at, so that the loop has no way out but its end.
pub fn asks_some(store: &[u8], marks: &[u8], parts: &[u8], r: u8, receives: bool) -> bool {
    let watched = cell(store, r, ARGUMENTS) as usize;
    let from = Store::FLOWS + watched * Store::MEMBERS;
    if store.len() < from + Store::MEMBERS || marks.len() < SIZE || parts.len() < PARTS {
        return false;
    }
    let changed = byte_at(marks, watched);
    let mut found = 0;
    for k in 0..Store::ROWS {
        let mark = changed.max(marks[MEMBERS + 1 + k]);
        let new = both(
            store[from + 1 + k],
            mark_of(parts[Store::ROWS + k], receives, mark),
        );
        found = found.max(new);
    }
    0 < found
}

// Whether row r is a sync and row k a receive: a sync has all its receives together.
fn received(store: &[u8], r: u8, k: u8) -> bool {
    cell(store, r, KIND) == SYNC && cell(store, k, KIND) == RECV
}

// Whether a sync at row r needs nothing of the send row k: another sync had it, and unit is in its set.
fn sent(store: &[u8], marks: &[u8], r: u8, k: u8) -> bool {
    let name = cell(store, r, NAME) as usize;
    cell(store, r, KIND) == SYNC
        && cell(store, k, KIND) == SEND
        && byte_at(store, Store::FLOWS + name * Store::MEMBERS) != 0
        && byte_at(marks, SENDS + k as usize) == 1
}

// Whether row r may ask something anew of row k in its set.
pub fn asks_member(store: &[u8], marks: &[u8], r: u8, all: bool, k: u8) -> bool {
    let watched = cell(store, r, ARGUMENTS) as usize;
    let member = k as usize + 1;
    if byte_at(store, Store::FLOWS + watched * Store::MEMBERS + member) == 0 {
        return false;
    }
    if sent(store, marks, r, k) || received(store, r, k) {
        return false;
    }
    all || 0 < byte_at(marks, MEMBERS + member)
        || byte_at(marks, SEEN + r as usize * Store::ROWS + k as usize) != 1
}

// The sets beside that of its name that row r adds to because of row k: those of a case's names, of a function's parameter, of channels.
fn other_set(store: &[u8], r: u8, k: u8) -> Option<u8> {
    match cell(store, r, KIND) {
        SYNC if cell(store, k, KIND) == SEND => Some(COMMS),
        CASE => Some(cell(store, r, ARGUMENTS + 1)),
        APPLY.. => Some(cell(store, k, ARGUMENTS + 1)),
        _ => None,
    }
}

fn third_set(store: &[u8], r: u8) -> Option<u8> {
    match cell(store, r, KIND) {
        CASE => Some(cell(store, r, ARGUMENTS + 3)),
        _ => None,
    }
}

// Marks that row r had row k.
pub fn see(marks: &mut [u8], r: u8, k: u8) {
    put(marks, SENDS + k as usize, 1);
    put(marks, SEEN + r as usize * Store::ROWS + k as usize, 1);
}

// Marks the sets that row r may have added to because of row k.
pub fn note_added(store: &[u8], marks: &mut [u8], parts: &[u8], r: u8, k: u8) {
    note(marks, parts, cell(store, r, NAME));
    if let Some(n) = other_set(store, r, k) {
        note(marks, parts, n);
    }
    if let Some(n) = third_set(store, r) {
        note(marks, parts, n);
    }
}
