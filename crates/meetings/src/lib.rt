// A send and a receive that meet: what each thread at a sync row offers or awaits, and what a meeting does.
#![tactic(auto)]

ghost use Rattle.std.specs.Prelude.{◌≡◌};
ghost use Rattle.machine.specs.Machine.{event_of, offers, awaits, both_go_on, meeting};
ghost use Rattle.run_memory.specs.RunMemory.{InLimits, memory_in};
ghost use Rattle.store.specs.Rows.{store_program};
ghost use Rattle.meetings.specs.Meetings.{changes_by, meeting_in};

use forms::{form_at, row_in};
use lookups::{find, find_channel, find_closure};
use machine::{Cell, Held, Kept, ThreadRecord};
use program::{Bind, Form, Row};
use run_memory::in_use;

// The receiver's cell and its record after the meeting, and the sender's.
#[derive(Drop)]
pub struct Met {
    pub received: Cell,
    pub receiver: ThreadRecord,
    pub sent: Cell,
    pub sender: ThreadRecord,
}

// The event value of a thread at a sync row.
fn event_at(store: &[u8], rows: u8, run: &[u8], t: ThreadRecord) -> Option<(u8, u16)>
    ensures { result ≡ event_of (store_program rows store.now) (memory_in run.now) t }
{
    let Form::Sync { event } = form_at(store, rows, t.row) else {
        return None;
    };
    find_closure(run, t.cell, event)
}

// The channel that a thread sends on, and the message.
fn offers(store: &[u8], rows: u8, run: &[u8], t: ThreadRecord) -> Option<(u16, Held)>
    ensures { result ≡ offers (store_program rows store.now) (memory_in run.now) t }
{
    let (r, k) = event_at(store, rows, run, t)?;
    let Form::Send { channel, message } = form_at(store, rows, r) else {
        return None;
    };
    let i = find_channel(run, k, channel)?;
    let held = find(run, k, message)?;
    Some((i, held))
}

// The channel that a thread receives on.
fn awaits(store: &[u8], rows: u8, run: &[u8], t: ThreadRecord) -> Option<u16>
    ensures { result ≡ awaits (store_program rows store.now) (memory_in run.now) t }
{
    let (r, k) = event_at(store, rows, run, t)?;
    let Form::Recv { channel } = form_at(store, rows, r) else {
        return None;
    };
    find_channel(run, k, channel)
}

// Both go on: the receiver's name gets the message, and the sender's gets unit.
fn both_go_on(
    run: &[u8],
    sender: ThreadRecord,
    b: Bind,
    receiver: ThreadRecord,
    d: Bind,
    message: Held,
) -> Met
    requires { InLimits run.now }
    ensures { changes_by result ≡ both_go_on (memory_in run.now) sender b receiver d message }
{
    let n = in_use(run);
    let newest = n.cells + 1;
    Met {
        received: Cell {
            name: d.name,
            older: receiver.cell,
            kept: Kept::Keeps(message),
        },
        receiver: ThreadRecord {
            row: d.rest,
            cell: newest,
            frame: receiver.frame,
        },
        sent: Cell {
            name: b.name,
            older: sender.cell,
            kept: Kept::Keeps(Held::Unit),
        },
        sender: ThreadRecord {
            row: b.rest,
            cell: newest + 1,
            frame: sender.frame,
        },
    }
}

// What a meeting of two threads does.
pub fn meeting(
    store: &[u8],
    rows: u8,
    run: &[u8],
    sender: ThreadRecord,
    receiver: ThreadRecord,
) -> Option<Met>
    requires { InLimits run.now }
    ensures { meeting_in result ≡ meeting (store_program rows store.now) (memory_in run.now) sender receiver }
{
    let Row::Bind(b) = row_in(store, rows, sender.row) else {
        return None;
    };
    let Row::Bind(d) = row_in(store, rows, receiver.row) else {
        return None;
    };
    let (i, message) = offers(store, rows, run, sender)?;
    let j = awaits(store, rows, run, receiver)?;
    if i == j {
        return Some(both_go_on(run, sender, b, receiver, d, message));
    }
    None
}
