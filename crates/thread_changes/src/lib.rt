// What a thread's own move does: the rule of the row where it stands. `specs/Machine` of crate machine says it.
#![tactic(auto)]

ghost use Rattle.std.specs.Prelude.{◌≡◌};
ghost use Rattle.program.specs.declared.Form.{Form};
ghost use Rattle.machine.specs.Machine.{return_of, go_on, fork, form_change, result_change, change};
ghost use Rattle.run_memory.specs.RunMemory.{InLimits, memory_in};
ghost use Rattle.store.specs.Rows.{store_program};
ghost use Rattle.thread_changes.specs.Changes.{change_by, change_in, pair_of_name, goes_on_with, enters_with};

use forms::{form_at, row_in};
use lookups::{find, find_closure, find_frame};
use machine::{Cell, Frame, Held, Kept, ThreadRecord};
use program::{Bind, Form, Row};
use run_memory::{in_use, next_frame};

// What a move takes, the newest cell first, the thread's record after it, and that of the thread that it starts.
#[derive(Drop)]
pub enum ThreadChange {
    Binds(Cell, ThreadRecord),
    Spawns(Cell, ThreadRecord, ThreadRecord),
    Enters(Cell, Frame, ThreadRecord),
    Applies(Cell, Cell, Frame, ThreadRecord),
}

// On to the rest, where the bind's name has a value.
#[tactic(auto, using(crate::proofs::Rules::goes_on))]
pub fn go_on(run: &[u8], t: ThreadRecord, b: Bind, kept: Kept) -> ThreadChange
    requires { InLimits run.now }
    ensures { change_by result ≡ go_on (memory_in run.now) t b kept }
{
    let n = in_use(run);
    let cell = Cell {
        name: b.name,
        older: t.cell,
        kept,
    };
    let after = ThreadRecord {
        row: b.rest,
        cell: n.cells + 1,
        frame: t.frame,
    };
    ThreadChange::Binds(cell, after)
}

// The same, and a new thread, with its parent's environment and no waiting return.
#[tactic(auto, using(crate::proofs::Rules::forks))]
fn fork(run: &[u8], t: ThreadRecord, b: Bind, child: u8) -> ThreadChange
    requires { InLimits run.now }
    ensures { change_by result ≡ fork (memory_in run.now) t b child }
{
    let n = in_use(run);
    let cell = Cell {
        name: b.name,
        older: t.cell,
        kept: Kept::Keeps(Held::Unit),
    };
    let after = ThreadRecord {
        row: b.rest,
        cell: n.cells + 1,
        frame: t.frame,
    };
    let born = ThreadRecord {
        row: child,
        cell: t.cell,
        frame: 0,
    };
    ThreadChange::Spawns(cell, after, born)
}

// The return that waits for a call.
fn return_of(t: ThreadRecord, b: Bind) -> Frame
    ensures { result ≡ return_of t b }
{
    Frame {
        name: b.name,
        rest: b.rest,
        cell: t.cell,
        older: t.frame,
    }
}

// Into a branch, where a name has the value that another has from a cell on.
#[tactic(auto, using(crate::proofs::Rules::newest_next))]
fn enter(
    run: &[u8],
    t: ThreadRecord,
    b: Bind,
    row: u8,
    name: u8,
    from: u16,
    value: u8,
) -> Option<ThreadChange>
    requires { InLimits run.now }
    ensures { change_in result ≡ enters_with (memory_in run.now) t b row name from value }
{
    let held = find(run, from, value)?;
    let n = in_use(run);
    let cell = Cell {
        name,
        older: t.cell,
        kept: Kept::Keeps(held),
    };
    let after = ThreadRecord {
        row,
        cell: n.cells + 1,
        frame: next_frame(run),
    };
    Some(ThreadChange::Enters(cell, return_of(t, b), after))
}

// On to the rest with the value that a name has from a cell on.
fn go_on_with(run: &[u8], t: ThreadRecord, b: Bind, from: u16, value: u8) -> Option<ThreadChange>
    requires { InLimits run.now }
    ensures { change_in result ≡ goes_on_with (memory_in run.now) t b from value }
{
    let held = find(run, from, value)?;
    Some(go_on(run, t, b, Kept::Keeps(held)))
}

// The pair that a name has: its two names, and the newest cell of its environment.
fn find_pair(store: &[u8], rows: u8, run: &[u8], t: ThreadRecord, pair: u8) -> Option<(u8, u8, u16)>
    ensures { result ≡ pair_of_name (store_program rows store.now) (memory_in run.now) t pair }
{
    let (r, k) = find_closure(run, t.cell, pair)?;
    let Form::Pair { first, second } = form_at(store, rows, r) else {
        return None;
    };
    Some((first, second, k))
}

// Case: into the branch of a left or a right value.
fn case_change(
    store: &[u8],
    rows: u8,
    run: &[u8],
    t: ThreadRecord,
    b: Bind,
    subject: u8,
    left_name: u8,
    left: u8,
    right_name: u8,
    right: u8,
) -> Option<ThreadChange>
    requires { InLimits run.now }
    ensures { change_in result ≡ form_change (store_program rows store.now) (memory_in run.now) t b (Form.Case subject left_name left right_name right) }
{
    let (r, k) = find_closure(run, t.cell, subject)?;
    match form_at(store, rows, r) {
        Form::Left { value } => enter(run, t, b, left, left_name, k, value),
        Form::Right { value } => enter(run, t, b, right, right_name, k, value),
        _ => None,
    }
}

// Apply: into the body, in the fun value's environment.
#[tactic(auto, using(crate::proofs::Rules::newest_next))]
fn apply_change(
    store: &[u8],
    rows: u8,
    run: &[u8],
    t: ThreadRecord,
    b: Bind,
    function: u8,
    argument: u8,
) -> Option<ThreadChange>
    requires { InLimits run.now }
    ensures { change_in result ≡ form_change (store_program rows store.now) (memory_in run.now) t b (Form.Apply function argument) }
{
    let (r, k) = find_closure(run, t.cell, function)?;
    let Form::Fun {
        own,
        parameter,
        body,
    } = form_at(store, rows, r)
    else {
        return None;
    };
    let held = find(run, t.cell, argument)?;
    let n = in_use(run);
    let newest = n.cells + 1;
    let after = ThreadRecord {
        row: body,
        cell: newest + 1,
        frame: next_frame(run),
    };
    let own_cell = Cell {
        name: own,
        older: k,
        kept: Kept::Keeps(Held::Closure(r, k)),
    };
    let parameter_cell = Cell {
        name: parameter,
        older: newest,
        kept: Kept::Keeps(held),
    };
    Some(ThreadChange::Applies(parameter_cell, own_cell, return_of(t, b), after))
}

// A bind: the rule of its form. A value row has itself with the present environment; at a sync no thread moves alone.
#[tactic(auto, using(crate::proofs::Rules::by_form), unfolding(machine::specs::Machine::form_change))]
fn form_change(store: &[u8], rows: u8, run: &[u8], t: ThreadRecord, b: Bind) -> Option<ThreadChange>
    requires { InLimits run.now }
    ensures { change_in result ≡ form_change (store_program rows store.now) (memory_in run.now) t b b.form }
{
    match b.form {
        Form::Unit => Some(go_on(run, t, b, Kept::Keeps(Held::Unit))),
        Form::Chan => Some(go_on(run, t, b, Kept::Makes)),
        Form::Send { .. }
        | Form::Recv { .. }
        | Form::Pair { .. }
        | Form::Left { .. }
        | Form::Right { .. }
        | Form::Fun { .. } => {
            let kept = Kept::Keeps(Held::Closure(t.row, t.cell));
            Some(go_on(run, t, b, kept))
        }
        Form::Spawn { child } => Some(fork(run, t, b, child)),
        Form::Sync { .. } => None,
        Form::First { pair } => {
            let (first, _, k) = find_pair(store, rows, run, t, pair)?;
            go_on_with(run, t, b, k, first)
        }
        Form::Second { pair } => {
            let (_, second, k) = find_pair(store, rows, run, t, pair)?;
            go_on_with(run, t, b, k, second)
        }
        Form::Case {
            subject,
            left_name,
            left,
            right_name,
            right,
        } => case_change(
            store, rows, run, t, b, subject, left_name, left, right_name, right,
        ),
        Form::Apply { function, argument } => apply_change(
            store, rows, run, t, b, function, argument,
        ),
    }
}

// A result: the last pushed return that waits.
#[tactic(auto, using(crate::proofs::Rules::newest_next))]
fn result_change(run: &[u8], t: ThreadRecord, name: u8) -> Option<ThreadChange>
    requires { InLimits run.now }
    ensures { change_in result ≡ result_change (memory_in run.now) t name }
{
    let frame = find_frame(run, t.frame)?;
    let held = find(run, t.cell, name)?;
    let n = in_use(run);
    let cell = Cell {
        name: frame.name,
        older: frame.cell,
        kept: Kept::Keeps(held),
    };
    let after = ThreadRecord {
        row: frame.rest,
        cell: n.cells + 1,
        frame: frame.older,
    };
    Some(ThreadChange::Binds(cell, after))
}

// What a thread's own move does.
#[tactic(auto, using(crate::proofs::Rules::by_result, crate::proofs::Rules::by_bind))]
pub fn change(store: &[u8], rows: u8, run: &[u8], t: ThreadRecord) -> Option<ThreadChange>
    requires { InLimits run.now }
    ensures { change_in result ≡ change (store_program rows store.now) (memory_in run.now) t }
{
    match row_in(store, rows, t.row) {
        Row::Result(name) => result_change(run, t, name),
        Row::Bind(b) => form_change(store, rows, run, t, b),
    }
}
