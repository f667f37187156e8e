// What a sync asks of the channels of a send row: that they hold the set of its message.
#![tactic(auto)]

ghost use Rattle.std.specs.Prelude.{◌&&◌, ◌≡◌, ◌≤◌, min, length};
ghost use Rattle.program.specs.Flow.{lies, for_each_chan};
ghost use Rattle.calls.specs.Layout.{member_limit};
ghost use Rattle.store.specs.Rows.{store_program};
ghost use Rattle.tables.specs.Tables.{store_flow, store_comm};
ghost use Rattle.row_lists.specs.Lists.{Lists, of_kind, chan_kind, send_kind};
ghost use Rattle.sets.specs.Sets.{Sized, Bytewise, set_of};
ghost use Rattle.channel_asks.specs.Channels.{send_test, Sends, AllHold};

use forms::form_at;
use members::has_row;
use program::Form;
use sets::{comm_set, flow_set, lies_in, lies_in_comm};
use store::Store;

// Makes each byte of a set the smaller of it and that of another.
fn meet(set: &mut [u8], other: &[u8])
    requires { (member_limit ≤ length set.old) × (member_limit ≤ length other.now) }
    ensures { Bytewise min member_limit other.now set.old set.new }
{
    for i in 0..Store::MEMBERS {
        set[i] = set[i].min(other[i]);
    }
}

// A set that every channel holds, by the list of the chan rows.
#[tactic(auto, using(crate::proofs::Channels::holding_more, crate::proofs::Channels::holding_all, crate::proofs::Channels::none_held))]
fn held_by_all(store: &[u8], rows: u8, chans: &[u8]) -> [u8; Store::MEMBERS]
    requires sized { Sized rows store.now }
    requires lists { Lists rows (of_kind store.now chan_kind) chans.now }
    ensures { AllHold rows store.now result }
{
    let mut all = [1u8; Store::MEMBERS];
    for &k in chans {
        let set = comm_set(store, k);
        if set.len() < Store::MEMBERS {
            return [0u8; Store::MEMBERS];
        }
        meet(&mut all, set);
    }
    all
}

// Whether channel row k is as a sync asks, with or without unit in its set: it holds a set, or there is no such channel.
fn chan_holds(store: &[u8], rows: u8, given: bool, set: &[u8], k: u8) -> bool
    requires { Sized rows store.now }
    ensures { let bytes = store.now in result ≡ given && lies (store_program rows bytes) (set_of set.now) (store_comm bytes k) }
{
    given && lies_in_comm(store, rows, set, k)
}

// Whether each channel in a set is so, by the list of the chan rows.
#[tactic(auto, using(crate::proofs::Channels::each_passes, crate::proofs::Channels::one_fails))]
fn chans_hold(store: &[u8], rows: u8, chans: &[u8], given: bool, from: &[u8], set: &[u8]) -> bool
    requires sized { Sized rows store.now }
    requires lists { Lists rows (of_kind store.now chan_kind) chans.now }
    ensures { let bytes = store.now in result ≡ for_each_chan (store_program rows bytes) (set_of from.now) λ k. given && lies (store_program rows bytes) (set_of set.now) (store_comm bytes k) }
{
    for &k in chans {
        if has_row(from, k) && !chan_holds(store, rows, given, set, k) {
            return false;
        }
    }
    true
}

// Whether row s, if it is a send row, passes a sync with or without unit in its set. A message that every channel holds passes at once.
fn send_passes(store: &[u8], rows: u8, chans: &[u8], all: &[u8], given: bool, s: u8) -> bool
    requires sized { Sized rows store.now }
    requires lists { Lists rows (of_kind store.now chan_kind) chans.now }
    requires all_hold { AllHold rows store.now all.now }
    ensures { let bytes = store.now in result ≡ send_test (store_program rows bytes) (store_flow bytes) (store_comm bytes) given s }
{
    let Form::Send { channel, message } = form_at(store, rows, s) else {
        return true;
    };
    let set = flow_set(store, message);
    if given && lies_in(set, all, rows) {
        return true;
    }
    let from = flow_set(store, channel);
    chans_hold(store, rows, chans, given, from, set)
}

// Unit and the rows that pass, as a set, by the list of the send rows, since every other row passes. Always inlined, so that its arrays
// take the place of the caller's that are done with.
#[inline(always)]
pub fn passing_sends(
    store: &[u8],
    rows: u8,
    chans: &[u8],
    sends: &[u8],
    given: bool,
) -> [u8; Store::MEMBERS]
    requires sized { Sized rows store.now }
    requires lists { Lists rows (of_kind store.now chan_kind) chans.now }
    requires lists_2 { Lists rows (of_kind store.now send_kind) sends.now }
    ensures { Sends rows store.now given result }
{
    let mut marks = [1u8; Store::MEMBERS];
    if sends.is_empty() {
        return marks;
    }
    let all = held_by_all(store, rows, chans);
    for &s in sends {
        marks[s as usize + 1] = send_passes(store, rows, chans, &all, given, s) as u8;
    }
    marks
}
