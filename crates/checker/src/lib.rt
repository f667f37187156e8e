// The checker's calls, each of a crate of its own. None has a `requires`.
#![tactic(auto)]

pub use call_infer::infer;
pub use call_judge::judge;
pub use call_load::load;
pub use call_preview::preview;
pub use call_replace::replace;
pub use call_run::{begin_run, meet_threads, move_thread};
pub use call_verdict::verdict;
pub use call_write::write;
