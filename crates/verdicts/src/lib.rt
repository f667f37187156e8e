// The words of a channel: which of the topologies hold of it, told by a grid of which rows reach which.
#![tactic(auto)]

ghost use Rattle.std.specs.Prelude.{map, ◌≡◌, ◌≤◌, length};
ghost use Rattle.program.specs.Verdict.{reach, says};
ghost use Rattle.format.specs.Limits.{row_limit};
ghost use Rattle.calls.specs.Judging.{verdict_words};
ghost use Rattle.store.specs.Rows.{store_program};
ghost use Rattle.tables.specs.Tables.{store_flow};
ghost use Rattle.grids.specs.Grid.{grid_size, Shows};
ghost use Rattle.row_lists.specs.Lists.{Lists, of_kind, spawn_kind};
ghost use Rattle.verdicts.specs.Words.{ends_at, facts_at, word_in, facts_in};
ghost use Rattle.verdicts.specs.Ready.{Ready};

use claim_words::says;
use grids::GRID;
use place_marks::{Side, places};
use program::{Ends, Facts, Word};
use reach::fill_reach;
use row_lists::Kind;
use row_marks::{none_marked, three_meet};
use walks::{reached_rows, rivals, rows_ahead};

// What is found where there are no places: at one end, and at both.
const NO_ENDS: Ends = Ends {
    twice: false,
    rivals: false,
};

const NO_FACTS: Facts = Facts {
    sends: NO_ENDS,
    receives: NO_ENDS,
};

// What is found of the walks that come to the marked places, where `comes` marks the rows that their shared beginnings come to, by the list
// of the spawns.
fn ends_of(store: &[u8], rows: u8, grid: &[u8], spawns: &[u8], comes: &[u8], places: &[u8]) -> Ends
    requires rows_le_row_limit { (rows ≤ row_limit) × (grid_size ≤ length grid.now) × (row_limit ≤ length comes.now) × (row_limit ≤ length places.now) }
    requires shows { Shows (reach (store_program rows store.now) (store_flow store.now)) grid.now }
    requires lists { Lists rows (of_kind store.now spawn_kind) spawns.now }
    ensures { let bytes = store.now in result ≡ ends_at rows (store_program rows bytes) (store_flow bytes) comes.now places.now }
{
    if none_marked(places) {
        return NO_ENDS;
    }
    let ahead = rows_ahead(grid, rows, places);
    Ends {
        twice: three_meet(comes, places, &ahead, rows as usize),
        rivals: rivals(store, rows, spawns, comes, places, &ahead),
    }
}

// The same of marked send places and marked receive places.
#[tactic(auto, unfolding(program::specs::Verdict::facts))]
fn facts(
    store: &[u8],
    rows: u8,
    grid: &[u8],
    spawns: &[u8],
    comes: &[u8],
    sends: &[u8],
    receives: &[u8],
) -> Facts
    requires rows_le_row_limit { (rows ≤ row_limit) × (grid_size ≤ length grid.now) × (row_limit ≤ length comes.now) × (row_limit ≤ length sends.now) × (row_limit ≤ length receives.now) }
    requires shows { Shows (reach (store_program rows store.now) (store_flow store.now)) grid.now }
    requires lists { Lists rows (of_kind store.now spawn_kind) spawns.now }
    ensures { let bytes = store.now in result ≡ facts_at rows (store_program rows bytes) (store_flow bytes) comes.now sends.now receives.now }
{
    Facts {
        sends: ends_of(store, rows, grid, spawns, comes, sends),
        receives: ends_of(store, rows, grid, spawns, comes, receives),
    }
}

// What is found at the ends of channel row c: over all pairs of walks that can share a run, whose shared beginnings come to
// every row that a walk comes to.
fn channel_facts(
    store: &[u8],
    rows: u8,
    grid: &[u8],
    comes: &[u8],
    sends: &[u8],
    receives: &[u8],
    syncs: &[u8],
    spawns: &[u8],
    c: u8,
) -> Facts
    requires { Ready rows store.now grid.now comes.now sends.now receives.now syncs.now spawns.now }
    ensures { result ≡ facts_in (store_program rows store.now) (store_flow store.now) c }
{
    let sent = places(store, rows, Side::Sends, sends, syncs, c);
    let received = places(store, rows, Side::Receives, receives, syncs, c);
    facts(store, rows, grid, spawns, comes, &sent, &received)
}

// Whether a word holds of channel row c: `comes` marks the rows that walks come to, the others are the lists of the rows of their kinds.
#[tactic(auto, using(crate::proofs::Wording::word_is))]
pub fn word_holds(
    store: &[u8],
    rows: u8,
    grid: &[u8],
    comes: &[u8],
    sends: &[u8],
    receives: &[u8],
    syncs: &[u8],
    spawns: &[u8],
    c: u8,
    word: Word,
) -> bool
    requires { Ready rows store.now grid.now comes.now sends.now receives.now syncs.now spawns.now }
    ensures { result ≡ word_in (store_program rows store.now) (store_flow store.now) c word }
{
    let found = channel_facts(store, rows, grid, comes, sends, receives, syncs, spawns, c);
    says(word, found)
}

// What is found at the ends of channel row c, with marks and lists of its own.
fn own_facts(store: &[u8], rows: u8, grid: &[u8], c: u8) -> Facts
    requires rows_le_row_limit { (rows ≤ row_limit) × (grid_size ≤ length grid.now) }
    requires shows { Shows (reach (store_program rows store.now) (store_flow store.now)) grid.now }
    ensures { result ≡ facts_in (store_program rows store.now) (store_flow store.now) c }
{
    let comes = reached_rows(grid, rows);
    let sends = Kind::Send.listed(store, rows);
    let receives = Kind::Recv.listed(store, rows);
    let syncs = Kind::Sync.listed(store, rows);
    let spawns = Kind::Spawn.listed(store, rows);
    channel_facts(
        store,
        rows,
        grid,
        &comes,
        sends.rows(),
        receives.rows(),
        syncs.rows(),
        spawns.rows(),
        c,
    )
}

// What is found at the ends of channel row c, with marks and lists of its own, and a grid only where the channel has a place.
#[tactic(auto, using(crate::proofs::Wording::no_places))]
fn lone_facts(store: &[u8], rows: u8, c: u8) -> Facts
    requires { rows ≤ row_limit }
    ensures { result ≡ facts_in (store_program rows store.now) (store_flow store.now) c }
{
    let sends = Kind::Send.listed(store, rows);
    let receives = Kind::Recv.listed(store, rows);
    let syncs = Kind::Sync.listed(store, rows);
    let sent = places(store, rows, Side::Sends, sends.rows(), syncs.rows(), c);
    let received = places(
        store,
        rows,
        Side::Receives,
        receives.rows(),
        syncs.rows(),
        c,
    );
    if none_marked(&sent) && none_marked(&received) {
        return NO_FACTS;
    }
    let mut grid = [0u8; GRID];
    fill_reach(store, rows, &mut grid);
    let comes = reached_rows(&grid, rows);
    let spawns = Kind::Spawn.listed(store, rows);
    facts(store, rows, &grid, spawns.rows(), &comes, &sent, &received)
}

// The five words, in the order one-shot, one-to-one, fan-out, fan-in, one-sync, by what is found.
fn five(found: Facts) -> [bool; 5]
    ensures { result ≡ map (λ word. says word found) verdict_words }
{
    let words = [
        Word::OneShot,
        Word::OneToOne,
        Word::FanOut,
        Word::FanIn,
        Word::OneSync,
    ];
    words.map(|word| says(word, found))
}

// The five words of channel row c, told by a grid.
#[tactic(auto, using(crate::proofs::Wording::words_are))]
pub fn words(store: &[u8], rows: u8, grid: &[u8], c: u8) -> [bool; 5]
    requires rows_le_row_limit { (rows ≤ row_limit) × (grid_size ≤ length grid.now) }
    requires shows { Shows (reach (store_program rows store.now) (store_flow store.now)) grid.now }
    ensures { result ≡ map (word_in (store_program rows store.now) (store_flow store.now) c) verdict_words }
{
    five(own_facts(store, rows, grid, c))
}

// The five words of channel row c, with a grid of its own where the channel has a place.
#[tactic(auto, using(crate::proofs::Wording::words_are))]
pub fn lone_words(store: &[u8], rows: u8, c: u8) -> [bool; 5]
    requires { rows ≤ row_limit }
    ensures { result ≡ map (word_in (store_program rows store.now) (store_flow store.now) c) verdict_words }
{
    five(lone_facts(store, rows, c))
}
