// A move that the run rules allow: 31 where it would exceed a limit, else what it takes is written into run memory and thread records.
#![tactic(auto)]

ghost use Rattle.std.specs.Prelude.{◌≤◌, ◌<◌, [], ◌∷◌, ◌≡◌};
ghost use Rattle.std.specs.Prelude.{Some as some};
ghost use Rattle.machine.specs.Machine.{thread_limit};
ghost use Rattle.run_memory.specs.RunMemory.{InLimits, in_use, has_room};
ghost use Rattle.run_calls.specs.RunCalls.{Lends, LeavesRun, made};
ghost use Rattle.thread_changes.specs.Changes.{change_of};
ghost use Rattle.moves.specs.Moves.{alone_in, together_in};

use format::Reason;
use machine::{Cell, Frame, ThreadRecord};
use meetings::Met;
use run_calls::RunAnswer;
use run_memory::{Run, in_use, push_cell, push_frame, push_thread};
use thread_changes::ThreadChange;

// Whether this much more may be in use.
#[tactic(auto, unfolding(run_memory::specs::RunMemory::has_room))]
fn has_room(run: &[u8], cells: u16, frames: u16, threads: u8) -> bool
    requires in_limits { InLimits run.now }
    requires run_bound { (in_use run.now).threads ≤ thread_limit }
    requires cells_bound { (cells ≤ 2) × (frames ≤ 1) × (threads ≤ 1) }
    ensures { result ≡ has_room (in_use run.now) cells frames threads }
{
    let n = in_use(run);
    cells + n.cells <= Run::CELLS
        && frames + n.frames <= Run::FRAMES
        && threads + n.threads <= Run::THREADS
}

// A cell is taken.
#[tactic(auto, using(run_calls::proofs::Left::takes_one, crate::proofs::Making::room_told, crate::proofs::Making::made_refused, crate::proofs::Making::bind_made))]
fn make_bind(
    run: &mut [u8],
    threads: &mut [ThreadRecord],
    n: usize,
    cell: Cell,
    t: ThreadRecord,
) -> RunAnswer
    requires lends { Lends run.old threads.old }
    requires in_limits { InLimits run.old }
    requires n_lt_thread_limit { n < thread_limit }
    ensures { LeavesRun (made run.old threads.old (some ((n, change_of (cell ∷ []) [] t []) ∷ []))) result run.new threads.new }
{
    if !has_room(run, 1, 0, 0) {
        return Err(Reason::LimitExceeded.at(0));
    }
    push_cell(run, cell);
    threads[n] = t;
    Ok(in_use(run).threads)
}

// A cell is taken, and a thread is started.
#[tactic(auto, using(run_calls::proofs::Left::takes_one, crate::proofs::Making::room_told, crate::proofs::Making::one_pushed, crate::proofs::Making::thread_ready, crate::proofs::Making::made_refused, crate::proofs::Making::spawn_made))]
fn make_spawn(
    run: &mut [u8],
    threads: &mut [ThreadRecord],
    n: usize,
    cell: Cell,
    t: ThreadRecord,
    born: ThreadRecord,
) -> RunAnswer
    requires lends { Lends run.old threads.old }
    requires in_limits { InLimits run.old }
    requires n_lt_thread_limit { n < thread_limit }
    ensures { LeavesRun (made run.old threads.old (some ((n, change_of (cell ∷ []) [] t (born ∷ [])) ∷ []))) result run.new threads.new }
{
    if !has_room(run, 1, 0, 1) {
        return Err(Reason::LimitExceeded.at(0));
    }
    let next = in_use(run).threads as usize;
    push_cell(run, cell);
    push_thread(run);
    threads[n] = t;
    threads[next] = born;
    Ok(in_use(run).threads)
}

// A cell and a frame are taken.
#[tactic(auto, using(run_calls::proofs::Left::takes_one, crate::proofs::Making::room_told, crate::proofs::Making::one_pushed, crate::proofs::Making::frame_ready, crate::proofs::Making::made_refused, crate::proofs::Making::enter_made))]
fn make_enter(
    run: &mut [u8],
    threads: &mut [ThreadRecord],
    n: usize,
    cell: Cell,
    frame: Frame,
    t: ThreadRecord,
) -> RunAnswer
    requires lends { Lends run.old threads.old }
    requires in_limits { InLimits run.old }
    requires n_lt_thread_limit { n < thread_limit }
    ensures { LeavesRun (made run.old threads.old (some ((n, change_of (cell ∷ []) (frame ∷ []) t []) ∷ []))) result run.new threads.new }
{
    if !has_room(run, 1, 1, 0) {
        return Err(Reason::LimitExceeded.at(0));
    }
    push_cell(run, cell);
    push_frame(run, frame);
    threads[n] = t;
    Ok(in_use(run).threads)
}

// Two cells and a frame are taken.
#[tactic(auto, using(run_calls::proofs::Left::takes_one, crate::proofs::Making::room_told, crate::proofs::Making::one_pushed, crate::proofs::Making::two_pushed, crate::proofs::Making::cell_ready, crate::proofs::Making::frame_ready, crate::proofs::Making::made_refused, crate::proofs::Making::apply_made))]
fn make_apply(
    run: &mut [u8],
    threads: &mut [ThreadRecord],
    n: usize,
    parameter: Cell,
    own: Cell,
    frame: Frame,
    t: ThreadRecord,
) -> RunAnswer
    requires lends { Lends run.old threads.old }
    requires in_limits { InLimits run.old }
    requires n_lt_thread_limit { n < thread_limit }
    ensures { LeavesRun (made run.old threads.old (some ((n, change_of (parameter ∷ own ∷ []) (frame ∷ []) t []) ∷ []))) result run.new threads.new }
{
    if !has_room(run, 2, 1, 0) {
        return Err(Reason::LimitExceeded.at(0));
    }
    push_cell(run, own);
    push_cell(run, parameter);
    push_frame(run, frame);
    threads[n] = t;
    Ok(in_use(run).threads)
}

// Two cells are taken, one for each end.
#[tactic(auto, using(run_calls::proofs::Left::takes_two, crate::proofs::Making::room_told, crate::proofs::Making::one_pushed, crate::proofs::Making::cell_ready, crate::proofs::Making::made_refused, crate::proofs::Making::both_made))]
fn make_both(
    run: &mut [u8],
    threads: &mut [ThreadRecord],
    sender: usize,
    receiver: usize,
    met: Met,
) -> RunAnswer
    requires lends { Lends run.old threads.old }
    requires in_limits { InLimits run.old }
    requires receiver_lt_thread_limit { (receiver < thread_limit) × (sender < thread_limit) }
    ensures { LeavesRun (made run.old threads.old (some ((receiver, change_of (met.received ∷ []) [] met.receiver []) ∷ (sender, change_of (met.sent ∷ []) [] met.sender []) ∷ []))) result run.new threads.new }
{
    if !has_room(run, 2, 0, 0) {
        return Err(Reason::LimitExceeded.at(0));
    }
    push_cell(run, met.received);
    push_cell(run, met.sent);
    threads[receiver] = met.receiver;
    threads[sender] = met.sender;
    Ok(in_use(run).threads)
}

// What a thread's own move leaves.
pub fn make_change(
    run: &mut [u8],
    threads: &mut [ThreadRecord],
    n: usize,
    change: Option<ThreadChange>,
) -> RunAnswer
    requires lends { Lends run.old threads.old }
    requires in_limits { InLimits run.old }
    requires n_lt_thread_limit { n < thread_limit }
    ensures { LeavesRun (made run.old threads.old (alone_in n change)) result run.new threads.new }
{
    let Some(allowed) = change else {
        return Err(Reason::MoveNotAllowed.at(0));
    };
    match allowed {
        ThreadChange::Binds(cell, t) => make_bind(run, threads, n, cell, t),
        ThreadChange::Spawns(cell, t, born) => make_spawn(run, threads, n, cell, t, born),
        ThreadChange::Enters(cell, frame, t) => make_enter(run, threads, n, cell, frame, t),
        ThreadChange::Applies(parameter, own, frame, t) => make_apply(
            run, threads, n, parameter, own, frame, t,
        ),
    }
}

// What a meeting leaves.
pub fn make_meeting(
    run: &mut [u8],
    threads: &mut [ThreadRecord],
    sender: usize,
    receiver: usize,
    met: Option<Met>,
) -> RunAnswer
    requires lends { Lends run.old threads.old }
    requires in_limits { InLimits run.old }
    requires receiver_lt_thread_limit { (receiver < thread_limit) × (sender < thread_limit) }
    ensures { LeavesRun (made run.old threads.old (together_in sender receiver met)) result run.new threads.new }
{
    match met {
        None => Err(Reason::MoveNotAllowed.at(0)),
        Some(m) => make_both(run, threads, sender, receiver, m),
    }
}
