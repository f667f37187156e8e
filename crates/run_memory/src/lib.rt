// The run memory: slots of eight bytes, which hold the counts in use, the cells and the frames.
#![tactic(auto)]

ghost use Rattle.std.specs.Prelude.{◌≡◌, ◌+◌, ◌*◌, ◌≤◌, ◌<◌, length};
ghost use Rattle.machine.specs.declared.Kept.{Kept};
ghost use Rattle.machine.specs.Machine.{cell_limit, frame_limit, thread_limit, next_frame};
ghost use Rattle.run_memory.specs.RunMemory.{slot_size, run_size, word_at, slot_at, put_slot, kind_of, row_of, cell_of, kept_of, in_use, InLimits, memory_in, cell_at, frame_at, counted, push_cell, push_frame, push_thread};

use bytes_at::byte_at;
use machine::{Cell, Frame, Held, Kept};

// A slot: three numbers of one byte and two of two bytes.
#[derive(Drop)]
pub struct Slot {
    pub a: u8,
    pub b: u8,
    pub c: u8,
    pub d: u16,
    pub e: u16,
}

// How many threads, cells and frames are in use.
#[derive(Clone, Copy)]
pub struct InUse {
    pub threads: u8,
    pub cells: u16,
    pub frames: u16,
}

#[derive(Drop)]
pub struct Run {
    pub bytes: [u8; Run::SIZE],
}

impl Run {
    // The most in use.
    pub const CELLS: u16 = 4096;

    pub const FRAMES: u16 = 1024;

    pub const THREADS: u8 = 64;

    pub const SLOT_SIZE: usize = 8;
    // A slot for the counts, then those of the cells and of the frames.
    pub const SIZE: usize = Self::SLOT_SIZE * (1 + Self::CELLS as usize + Self::FRAMES as usize);
}

// A number of two bytes, the low one first.
#[tactic(auto, unfolding(crate::specs::RunMemory::word_at))]
fn word_at(run: &[u8], at: usize) -> u16
    requires { at < 1048576 }
    ensures { result ≡ word_at run.now at }
{
    let low = byte_at(run, at) as u16;
    let high = byte_at(run, at + 1) as u16;
    low + 256 * high
}

// The slot of this number.
#[tactic(auto, unfolding(crate::specs::RunMemory::slot_at))]
fn slot_at(run: &[u8], k: u16) -> Slot
    ensures { result ≡ slot_at run.now k }
{
    let at = Run::SLOT_SIZE * k as usize;
    Slot {
        a: byte_at(run, at),
        b: byte_at(run, at + 1),
        c: byte_at(run, at + 2),
        d: word_at(run, at + 3),
        e: word_at(run, at + 5),
    }
}

// How much is in use.
#[tactic(auto, unfolding(crate::specs::RunMemory::in_use))]
pub fn in_use(run: &[u8]) -> InUse
    ensures { result ≡ in_use run.now }
{
    let s = slot_at(run, 0);
    InUse {
        threads: s.a,
        cells: s.d,
        frames: s.e,
    }
}

// What a cell keeps, from the three numbers of its slot. The kinds are the cases of `Kept` as bytes, known here and in `kept_numbers` alone.
#[tactic(auto, unfolding(crate::specs::RunMemory::kept_of))]
fn kept_of(kind: u8, row: u8, cell: u16) -> Kept
    ensures { result ≡ kept_of kind row cell }
{
    match kind {
        0 => Kept::Keeps(Held::Unit),
        1 => Kept::Makes,
        2 => Kept::Keeps(Held::Channel(cell)),
        _ => Kept::Keeps(Held::Closure(row, cell)),
    }
}

// The kind, the row and the cell that a slot has for what a cell keeps.
fn kept_numbers(kept: Kept) -> (u8, u8, u16)
    ensures { result ≡ (kind_of kept, row_of kept, cell_of kept) }
{
    match kept {
        Kept::Keeps(Held::Unit) => (0, 0, 0),
        Kept::Makes => (1, 0, 0),
        Kept::Keeps(Held::Channel(cell)) => (2, 0, cell),
        Kept::Keeps(Held::Closure(row, cell)) => (3, row, cell),
    }
}

impl From<Slot> for Cell {
    ghost use Rattle.std.specs.Prelude.{◌≡◌};
    ghost use Rattle.run_memory.specs.RunMemory.{cell_of_slot};

    ghost from_gives = { λ s c. c ≡ cell_of_slot s };

    #[tactic(auto, unfolding(crate::specs::RunMemory::cell_of_slot))]
    fn from(s: Slot) -> Cell {
        Cell {
            name: s.a,
            older: s.d,
            kept: kept_of(s.b, s.c, s.e),
        }
    }
}

impl From<Cell> for Slot {
    ghost use Rattle.std.specs.Prelude.{◌≡◌};
    ghost use Rattle.run_memory.specs.RunMemory.{slot_of_cell};

    ghost from_gives = { λ c s. s ≡ slot_of_cell c };

    #[tactic(auto, unfolding(crate::specs::RunMemory::slot_of_cell))]
    fn from(cell: Cell) -> Slot {
        let (kind, row, value) = kept_numbers(cell.kept);
        Slot {
            a: cell.name,
            b: kind,
            c: row,
            d: cell.older,
            e: value,
        }
    }
}

impl From<Slot> for Frame {
    ghost use Rattle.std.specs.Prelude.{◌≡◌};
    ghost use Rattle.run_memory.specs.RunMemory.{frame_of_slot};

    ghost from_gives = { λ s f. f ≡ frame_of_slot s };

    #[tactic(auto, unfolding(crate::specs::RunMemory::frame_of_slot))]
    fn from(s: Slot) -> Frame {
        Frame {
            name: s.a,
            rest: s.b,
            cell: s.d,
            older: s.e,
        }
    }
}

impl From<Frame> for Slot {
    ghost use Rattle.std.specs.Prelude.{◌≡◌};
    ghost use Rattle.run_memory.specs.RunMemory.{slot_of_frame};

    ghost from_gives = { λ f s. s ≡ slot_of_frame f };

    #[tactic(auto, unfolding(crate::specs::RunMemory::slot_of_frame))]
    fn from(frame: Frame) -> Slot {
        Slot {
            a: frame.name,
            b: frame.rest,
            c: 0,
            d: frame.cell,
            e: frame.older,
        }
    }
}

// The cell of this number.
#[tactic(auto, unfolding(crate::specs::RunMemory::cell_at))]
pub fn cell_at(run: &[u8], k: u16) -> Cell
    ensures { result ≡ cell_at run.now k }
{
    Cell::from(slot_at(run, k))
}

// The frame of this number.
#[tactic(auto, unfolding(crate::specs::RunMemory::frame_at))]
pub fn frame_at(run: &[u8], k: u16) -> Frame
    requires { k ≤ frame_limit }
    ensures { result ≡ frame_at run.now k }
{
    Frame::from(slot_at(run, Run::CELLS + k))
}

// Writes a slot.
#[tactic(auto, unfolding(crate::specs::RunMemory::put_slot, crate::specs::RunMemory::slot_bytes))]
fn put_slot(run: &mut [u8], k: u16, s: Slot)
    requires { slot_size * k + slot_size ≤ length run.old }
    ensures { run.new ≡ put_slot run.old k s }
{
    let at = Run::SLOT_SIZE * k as usize;
    let d = s.d;
    let e = s.e;
    run[at] = s.a;
    run[at + 1] = s.b;
    run[at + 2] = s.c;
    run[at + 3] = (d % 256) as u8;
    run[at + 4] = (d / 256) as u8;
    run[at + 5] = (e % 256) as u8;
    run[at + 6] = (e / 256) as u8;
    run[at + 7] = 0;
}

// Writes how much is in use.
#[tactic(auto, unfolding(crate::specs::RunMemory::counted))]
pub fn put_counts(run: &mut [u8], n: InUse)
    requires { run_size ≤ length run.old }
    ensures { run.new ≡ counted run.old n }
{
    let s = Slot {
        a: n.threads,
        b: 0,
        c: 0,
        d: n.cells,
        e: n.frames,
    };
    put_slot(run, 0, s);
}

// Takes a cell.
#[tactic(auto, unfolding(crate::specs::RunMemory::push_cell))]
pub fn push_cell(run: &mut [u8], cell: Cell)
    requires run_size_in_bounds { run_size ≤ length run.old }
    requires run_bound { (in_use run.old).cells < cell_limit }
    ensures { run.new ≡ push_cell run.old cell }
{
    let n = in_use(run);
    let cells = n.cells + 1;
    put_slot(run, cells, Slot::from(cell));
    put_counts(run, InUse { cells, ..n });
}

// The number of the frame that is taken next.
pub fn next_frame(run: &[u8]) -> u16
    requires { InLimits run.now }
    ensures { result ≡ next_frame (memory_in run.now) }
{
    in_use(run).frames + 1
}

// Takes a frame. Nothing is given back during a run.
#[tactic(auto, unfolding(crate::specs::RunMemory::push_frame))]
pub fn push_frame(run: &mut [u8], frame: Frame)
    requires run_size_in_bounds { run_size ≤ length run.old }
    requires run_bound { (in_use run.old).frames < frame_limit }
    ensures { run.new ≡ push_frame run.old frame }
{
    let n = in_use(run);
    let frames = n.frames + 1;
    put_slot(run, Run::CELLS + frames, Slot::from(frame));
    put_counts(run, InUse { frames, ..n });
}

// Counts one thread more.
#[tactic(auto, unfolding(crate::specs::RunMemory::push_thread))]
pub fn push_thread(run: &mut [u8])
    requires run_size_in_bounds { run_size ≤ length run.old }
    requires run_bound { (in_use run.old).threads < thread_limit }
    ensures { run.new ≡ push_thread run.old }
{
    let n = in_use(run);
    let threads = n.threads + 1;
    put_counts(run, InUse { threads, ..n });
}
