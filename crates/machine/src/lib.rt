// What a watched run has in use: thread records, cells and frames. `specs/Machine` says what a move makes of them.
// Cells and frames are numbered from 1, the oldest first, and 0 names none; threads are numbered by birth from 0.
#![tactic(auto)]

// A thread: its row, the newest cell of its environment, and the frame of the last return that waits.
#[repr(C)]
#[derive(Clone, Copy, PartialEq, Eq)]
pub struct ThreadRecord {
    pub row: u8,
    pub cell: u16,
    pub frame: u16,
}

// A value: unit, a channel by the cell that made it, or a value row with the newest cell of its environment.
#[derive(Clone, Copy, PartialEq, Eq)]
pub enum Held {
    Unit,
    Channel(u16),
    Closure(u8, u16),
}

// What a cell keeps: a channel that this very cell made, so that no cell names itself; or a value.
#[derive(Clone, Copy, PartialEq, Eq)]
pub enum Kept {
    Makes,
    Keeps(Held),
}

// A bound name, what it has, and the cell of the name bound before it.
#[derive(Clone, Copy, PartialEq, Eq)]
pub struct Cell {
    pub name: u8,
    pub older: u16,
    pub kept: Kept,
}

// A waiting return: its name, where it goes on, the newest cell of its environment, and the frame of the return that waits below it.
#[derive(Clone, Copy, PartialEq, Eq)]
pub struct Frame {
    pub name: u8,
    pub rest: u8,
    pub cell: u16,
    pub older: u16,
}
