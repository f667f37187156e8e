// The value of a name, looked for from a cell on to older ones. A look-up ends because each cell that it goes to is older than the last, so it reads at most Run::CELLS of them.
#![tactic(auto)]

ghost use Rattle.std.specs.Prelude.{◌≡◌};
ghost use Rattle.machine.specs.Machine.{held_by, numbered, find, find_closure, find_channel};
ghost use Rattle.run_memory.specs.RunMemory.{InLimits, memory_in};

use machine::{Frame, Held, Kept};
use run_memory::{cell_at, frame_at, in_use};

// The value that the cell of this number keeps.
#[tactic(auto, unfolding(machine::specs::Machine::held_by))]
fn held_by(k: u16, kept: Kept) -> Held
    ensures { result ≡ held_by k kept }
{
    match kept {
        Kept::Makes => Held::Channel(k),
        Kept::Keeps(held) => held,
    }
}

// The value of a name.
pub fn find(run: &[u8], from: u16, name: u8) -> Option<Held>
    ensures { result ≡ find (memory_in run.now).cells from name }
{
    if in_use(run).cells < from {
        return None;
    }
    let mut k = from;
    // Not a count: each cell says which one comes next.
    while 0 < k {
        let cell = cell_at(run, k);
        if cell.name == name {
            return Some(held_by(k, cell.kept));
        }
        let older = cell.older;
        if k <= older {
            return None;
        }
        k = older;
    }
    None
}

// The closure that a name has: its value row, and the newest cell of its environment.
pub fn find_closure(run: &[u8], from: u16, name: u8) -> Option<(u8, u16)>
    ensures { result ≡ find_closure (memory_in run.now).cells from name }
{
    match find(run, from, name)? {
        Held::Closure(row, cell) => Some((row, cell)),
        _ => None,
    }
}

// The channel that a name has, by the cell that made it.
pub fn find_channel(run: &[u8], from: u16, name: u8) -> Option<u16>
    ensures { result ≡ find_channel (memory_in run.now).cells from name }
{
    match find(run, from, name)? {
        Held::Channel(cell) => Some(cell),
        _ => None,
    }
}

// The frame of this number, if it is in use.
pub fn find_frame(run: &[u8], k: u16) -> Option<Frame>
    requires { InLimits run.now }
    ensures { result ≡ numbered (memory_in run.now).frames k }
{
    // Two tests: joined by `||`, the search finds no proof.
    if k == 0 {
        return None;
    }
    if in_use(run).frames < k {
        return None;
    }
    Some(frame_at(run, k))
}
