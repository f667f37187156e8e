// The store of bytes that a file is loaded into: its layout, and a new one.
#![tactic(auto)]

ghost use Rattle.std.specs.Prelude.{◌≡◌, ◌≤◌, ◌++◌, length, drop, replicate};
ghost use Rattle.calls.specs.Layout.{store_size};

#[derive(Drop)]
pub struct Store {
    pub bytes: [u8; Store::SIZE],
}

impl Store {
    // Rows and names are numbered below these.
    pub const ROWS: usize = 160;

    pub const NAMES: usize = Self::ROWS;
    // The bytes that a file has at most.
    pub const FILE_BYTES: usize = 32768;
    // The bytes of a row, and the members of a set: unit and the rows.
    pub const ROW_SIZE: usize = 8;

    pub const MEMBERS: usize = Self::ROWS + 1;
    // Where the parts after the rows begin: a set for each name, a set for each channel row, a claim for each row.
    pub const FLOWS: usize = Self::ROWS * Self::ROW_SIZE;

    pub const COMMS: usize = Self::FLOWS + Self::NAMES * Self::MEMBERS;

    pub const CLAIMS: usize = Self::COMMS + Self::ROWS * Self::MEMBERS;

    pub const SIZE: usize = Self::CLAIMS + Self::ROWS;
    // The codes of claim words are below this.
    pub const CODES: u8 = 7;

    pub fn empty() -> Store
        ensures { result.bytes ≡ replicate store_size 0 }
    {
        Store {
            bytes: [0; Self::SIZE],
        }
    }
}

// Sets the bytes of a store, at the head of a slice, to 0.
pub fn clear(store: &mut [u8])
    requires { store_size ≤ length store.old }
    ensures { store.new ≡ replicate store_size 0 ++ drop store_size store.old }
{
    store[..Store::SIZE].fill(0);
}
