// 22 of run memory: whether nothing in use names what is not there. Cells, frames and threads are tested from the newest on, to the first fault.
#![tactic(auto)]

ghost use Rattle.std.specs.Prelude.{◌≡◌, ◌≤◌, length, take};
ghost use Rattle.program.specs.Each.{every};
ghost use Rattle.program.specs.Program.{Program};
ghost use Rattle.machine.specs.Machine.{Memory, thread_limit, sound_kept, sound_cells, sound_frame, sound_thread};
ghost use Rattle.run_memory.specs.RunMemory.{InLimits, in_use, memory_in, within_limits, sound_run};
ghost use Rattle.store.specs.Rows.{store_program};
ghost use Rattle.run_sound.specs.Known.{Known, Counted, sound_cell};

use binders::bound;
use bytes_at::byte_at;
use machine::{Cell, Frame, Held, Kept, ThreadRecord};
use run_memory::{InUse, Run, cell_at, frame_at, in_use};

// Whether no more is in use than may be.
#[tactic(auto, unfolding(run_memory::specs::RunMemory::within_limits))]
fn within_limits(n: InUse) -> bool
    ensures { result ≡ within_limits n }
{
    n.threads <= Run::THREADS && n.cells <= Run::CELLS && n.frames <= Run::FRAMES
}

// Whether what a cell keeps is there, where so many are older.
#[tactic(auto, unfolding(machine::specs::Machine::sound_kept, machine::specs::Machine::row_there))]
fn sound_kept(rows: u8, older: u16, kept: Kept) -> bool
    ensures { (p : Program) → length p ≡ rows → result ≡ sound_kept p older kept }
{
    match kept {
        Kept::Makes | Kept::Keeps(Held::Unit) => true,
        Kept::Keeps(Held::Channel(cell)) => 0 < cell && cell <= older,
        Kept::Keeps(Held::Closure(row, cell)) => row < rows && cell <= older,
    }
}

// Whether a cell names what is there, where so many are older.
#[tactic(auto, unfolding(crate::specs::Known::sound_cell))]
fn sound_cell(marks: &[u8], rows: u8, older: u16, cell: Cell) -> bool
    ensures { (p : Program) → Known rows marks.now p → result ≡ sound_cell p older cell }
{
    byte_at(marks, cell.name as usize) != 0
        && cell.older <= older
        && sound_kept(rows, older, cell.kept)
}

// Whether the cells in use do: each names older ones only.
fn sound_cells(marks: &[u8], rows: u8, run: &[u8]) -> bool
    ensures { (p : Program) → Known rows marks.now p → result ≡ sound_cells p (memory_in run.now).cells }
{
    for k in (1..=in_use(run).cells).rev() {
        if !sound_cell(marks, rows, k - 1, cell_at(run, k)) {
            return false;
        }
    }
    true
}

// Whether a frame names what is there, where so much is in use.
#[tactic(auto, unfolding(machine::specs::Machine::sound_frame, machine::specs::Machine::row_there))]
fn sound_frame(marks: &[u8], rows: u8, n: InUse, frame: Frame) -> bool
    ensures { (p : Program) (m : Memory) → Known rows marks.now p → Counted n m → result ≡ sound_frame p m frame }
{
    byte_at(marks, frame.name as usize) != 0
        && frame.rest < rows
        && frame.cell <= n.cells
        && frame.older <= n.frames
}

// Whether the frames in use do.
fn sound_frames(marks: &[u8], rows: u8, run: &[u8]) -> bool
    requires { InLimits run.now }
    ensures { (p : Program) → Known rows marks.now p → result ≡ every (sound_frame p (memory_in run.now)) (memory_in run.now).frames }
{
    let n = in_use(run);
    for k in (1..=n.frames).rev() {
        if !sound_frame(marks, rows, n, frame_at(run, k)) {
            return false;
        }
    }
    true
}

// Whether a thread names what is there, where so much is in use.
#[tactic(auto, unfolding(machine::specs::Machine::sound_thread, machine::specs::Machine::row_there))]
fn sound_thread(rows: u8, n: InUse, t: ThreadRecord) -> bool
    ensures { (p : Program) (m : Memory) → length p ≡ rows → Counted n m → result ≡ sound_thread p m t }
{
    t.row < rows && t.cell <= n.cells && t.frame <= n.frames
}

// Whether these threads do, those in use.
fn sound_threads(rows: u8, run: &[u8], threads: &[ThreadRecord]) -> bool
    ensures { (p : Program) → length p ≡ rows → result ≡ every (sound_thread p (memory_in run.now)) threads.now }
{
    let n = in_use(run);
    for &t in threads {
        if !sound_thread(rows, n, t) {
            return false;
        }
    }
    true
}

// 22 of run memory: whether no more is in use than may be, and nothing in use names what is not there.
pub fn sound_run(store: &[u8], rows: u8, run: &[u8], threads: &[ThreadRecord]) -> bool
    ensures { result ≡ sound_run (store_program rows store.now) run.now threads.now }
{
    let n = in_use(run);
    if !within_limits(n) {
        return false;
    }
    let marks = bound(store, rows);
    let used = threads.len().min(n.threads as usize);
    sound_cells(&marks, rows, run)
        && sound_frames(&marks, rows, run)
        && sound_threads(rows, run, &threads[..used])
}
