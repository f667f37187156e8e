// A grid of bytes, one for each pair of rows, that shows a relation between rows: steps taken in it, and closed.
#![tactic(auto)]

use store::Store;

pub mod rounds; // rounds.rt: single steps, and Warshall's rounds

pub use rounds::{close, take_step};

// The bytes of a grid: that of the pair of rows r and s is s * Store::ROWS + r.
pub const GRID: usize = Store::ROWS * Store::ROWS;
