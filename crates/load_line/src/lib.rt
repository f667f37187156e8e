// One line of a file read into a store, with refusals 2 to 5.
#![tactic(auto)]

ghost use Rattle.std.specs.Prelude.{◌≡◌, ◌≤◌, ◌<◌, length};
ghost use Rattle.format.specs.declared.Section.TheVariants.{Rows, Claims};
ghost use Rattle.format.specs.Limits.{row_limit};
ghost use Rattle.format.specs.Read.{read_line};
ghost use Rattle.calls.specs.Layout.{store_size, word_code};
ghost use Rattle.progress.specs.Progress.{Small};
ghost use Rattle.progress.specs.Lines.{section_of, place_of};
ghost use Rattle.load_line.specs.Line.{LineIs, read_rest};

use format::{Reason, Section};
use program::Word;
use progress::Progress;
use raw_rows::{row_above, row_of};
use read_rows::read_row;
use read_sets::read_set;
use read_text::{expect, read_argument};
use read_words::{read_section, read_word};
use store::Store;
use tables::Table;

// A line's answer: what has been read with it and the position of the next line, or why it is refused.
pub type LineRead = Result<(Progress, usize), Reason>;

// The code of a claim's word in the store: the words in order, from 1 on.
#[tactic(auto, unfolding(calls::specs::Layout::word_code))]
fn word_code(word: Word) -> u8
    ensures { result ≡ word_code word }
{
    word as u8 + 1
}

// Where the set of a key stands in a store.
fn place_of(table: Table, key: usize) -> usize
    requires { key < row_limit }
    ensures { result ≡ place_of table key }
{
    table.start() + key * Store::MEMBERS
}

// Reads the rest of a row's line behind its number, and keeps the row.
fn keep_row(file: &[u8], at: usize, n: u16, store: &mut [u8], p: Progress) -> LineRead
    requires store_size_in_bounds { store_size ≤ length store.old }
    requires small { Small p }
    ensures { LineIs (read_rest Rows n file.now at) p store.old result store.new }
{
    let (raw, e) = read_row(file, at).ok_or(Reason::NotALine)?;
    let next = expect(file, e, b"]\n").ok_or(Reason::NotALine)?;
    progress::row_fault(p, n as usize, row_above(raw))?;
    kept_rows::put_row(store, n as u8, row_of(raw));
    Ok((p.with_row(), next))
}

// Reads the rest of a set's line behind its key, and keeps the set in its table.
fn keep_set(file: &[u8], at: usize, n: u16, table: Table, store: &mut [u8], p: Progress) -> LineRead
    requires store_size_in_bounds { store_size ≤ length store.old }
    requires small { Small p }
    ensures { LineIs (read_rest (section_of table) n file.now at) p store.old result store.new }
{
    let mut flags = [0u8; Store::MEMBERS];
    let (e, fault) = read_set(file, at, &mut flags).ok_or(Reason::NotALine)?;
    let next = expect(file, e, b"]\n").ok_or(Reason::NotALine)?;
    let key = n as usize;
    progress::set_fault(p, table, key, fault)?;
    let place = place_of(table, key);
    store[place..place + Store::MEMBERS].copy_from_slice(&flags);
    Ok((p.with_set(table, key + 1), next))
}

// Reads the rest of a claim's line behind its number, and keeps the claim.
fn keep_claim(file: &[u8], at: usize, n: u16, store: &mut [u8], p: Progress) -> LineRead
    requires store_size_in_bounds { store_size ≤ length store.old }
    requires small { Small p }
    ensures { LineIs (read_rest Claims n file.now at) p store.old result store.new }
{
    let (word, e) = read_word(file, at).ok_or(Reason::NotALine)?;
    let next = expect(file, e, b"]\n").ok_or(Reason::NotALine)?;
    let c = n as usize;
    progress::claim_fault(p, c)?;
    store[Store::CLAIMS + c] = word_code(word);
    let least = c + 1;
    Ok((p.with_claim(least), next))
}

// Reads the line at a position and keeps it.
pub fn load_line(file: &[u8], at: usize, store: &mut [u8], p: Progress) -> LineRead
    requires store_size_in_bounds { store_size ≤ length store.old }
    requires small { Small p }
    ensures { LineIs (read_line file.now at) p store.old result store.new }
{
    let (section, q) = read_section(file, at).ok_or(Reason::NotALine)?;
    let (n, e) = read_argument(file, q).ok_or(Reason::NotALine)?;
    let rest = expect(file, e, b" ").ok_or(Reason::NotALine)?;
    match section {
        Section::Rows => keep_row(file, rest, n, store, p),
        Section::Flows => keep_set(file, rest, n, Table::Flow, store, p),
        Section::Comms => keep_set(file, rest, n, Table::Comm, store, p),
        Section::Claims => keep_claim(file, rest, n, store, p),
    }
}
