// The send and receive places of a channel.
#![tactic(auto)]

ghost use Rattle.std.specs.Prelude.{◌≡◌, ℕ, ◌≤◌};
ghost use Rattle.format.specs.Limits.{row_limit};
ghost use Rattle.calls.specs.Layout.{store_size};
ghost use Rattle.store.specs.Rows.{store_program};
ghost use Rattle.tables.specs.Tables.{store_flow};
ghost use Rattle.row_lists.specs.Lists.{Lists, of_kind, sync_kind};
ghost use Rattle.row_marks.specs.RowMarks.{Marked};
ghost use Rattle.place_marks.specs.declared.Side.{Side};
ghost use Rattle.place_marks.specs.Places.{kind_on, event_on, one_in, place};

use forms::form_at;
use program::Form;
use row_lists::RowList;
use store::Store;
use tables::flow_has;

// The two ends of a channel.
#[derive(Clone, Copy, PartialEq, Eq)]
pub enum Side {
    Sends,
    Receives,
}

// Whether row s is a send or a recv, by the side, whose channel has row c in its set.
fn event_on(store: &[u8], rows: u8, side: Side, c: u8, s: u8) -> bool
    ensures { let bytes = store.now in result ≡ event_on (store_program rows bytes) (store_flow bytes) side c s }
{
    match (side, form_at(store, rows, s)) {
        (Side::Sends, Form::Send { channel, .. }) => flow_has(store, channel, c),
        (Side::Receives, Form::Recv { channel }) => flow_has(store, channel, c),
        _ => false,
    }
}

// The rows of a list of sends or recvs, by the side, of which that holds, as a list.
fn events(store: &[u8], rows: u8, side: Side, list: &[u8], c: u8) -> RowList
    requires rows_le_row_limit { rows ≤ row_limit }
    requires lists { Lists rows (of_kind store.now (kind_on side)) list.now }
    ensures { let bytes = store.now in Lists rows (event_on (store_program rows bytes) (store_flow bytes) side c) result }
{
    let mut on = RowList::new();
    for &s in list {
        if event_on(store, rows, side, c, s) {
            on.push(s);
        }
    }
    on
}

// Whether one of the rows in a list is in the set whose rows begin at a position.
fn has_event(store: &[u8], at: usize, events: &[u8]) -> bool
    requires { at ≤ store_size }
    ensures { result ≡ one_in store.now at events.now }
{
    for &s in events {
        if 0 < read_text::byte_at(store, at + s as usize) {
            return true;
        }
    }
    false
}

// Whether row r is a sync with one of these rows in its set.
fn is_place(store: &[u8], rows: u8, events: &[u8], r: u8) -> bool
    requires { rows ≤ row_limit }
    ensures { let bytes = store.now in (side : Side) (c : ℕ) → Lists rows (event_on (store_program rows bytes) (store_flow bytes) side c) events.now → result ≡ place (store_program rows bytes) (store_flow bytes) side c r }
{
    let Form::Sync { event } = form_at(store, rows, r) else {
        return false;
    };
    let name = event as usize;
    if Store::ROWS <= name {
        return false;
    }
    let at = Store::FLOWS + name * Store::MEMBERS + 1;
    has_event(store, at, events)
}

// The places of channel row c on one side, by the lists of the side's rows and of the syncs.
pub fn places(
    store: &[u8],
    rows: u8,
    side: Side,
    list: &[u8],
    syncs: &[u8],
    c: u8,
) -> [u8; Store::ROWS]
    requires rows_le_row_limit { rows ≤ row_limit }
    requires lists { Lists rows (of_kind store.now (kind_on side)) list.now }
    requires lists_2 { Lists rows (of_kind store.now sync_kind) syncs.now }
    ensures { let bytes = store.now in Marked rows (place (store_program rows bytes) (store_flow bytes) side c) result }
{
    let on = events(store, rows, side, list, c);
    let mut marks = [0u8; Store::ROWS];
    for &r in syncs {
        marks[r as usize] = is_place(store, rows, on.rows(), r) as u8;
    }
    marks
}
