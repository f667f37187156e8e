// Sets filled by the rules, fast: each change is one that a rule asks, so that any order of the rows will do, and any row may be passed over.
// What is passed over is told by marks, bytes of which nothing is proved.
#![tactic(auto)]

pub mod visits; // visits.rt: what the rule of a row asks of a member of its set

ghost use Rattle.std.specs.Prelude.{false};
ghost use Rattle.store.specs.Rows.{store_program};
ghost use Rattle.asks.specs.Asks.{Names};
ghost use Rattle.send_adds.specs.Sends.{Ready};
ghost use Rattle.spreading.specs.Growing.{Grows};

use visits::visit;

// Adds what the rules ask, row after row: down from the first, or up from the last.
fn sweep(store: &mut [u8], rows: u8, names: &[u8], parts: &[u8], marks: &mut [u8], up: bool) -> bool
    requires ready { Ready rows store.old }
    requires names { Names (store_program rows store.old) names.now }
    ensures { Grows rows store.old store.new result }
{
    let mut more = false;
    for k in 0..rows {
        let r = if up { rows - 1 - k } else { k };
        more |= visit(store, rows, r, names, parts, marks);
    }
    more
}

// Down the rows and up again, until neither adds anything: a loop on that, which counts no index.
pub fn spread(store: &mut [u8], rows: u8, names: &[u8])
    requires ready { Ready rows store.old }
    requires names { Names (store_program rows store.old) names.now }
    ensures { Grows rows store.old store.new false }
{
    let parts = marks::parts_of(store, rows, names);
    let mut notes = [0u8; marks::SIZE];
    marks::start(&mut notes);
    let mut more = true;
    while more {
        let down = sweep(store, rows, names, &parts, &mut notes, false);
        marks::age(&mut notes);
        let up = sweep(store, rows, names, &parts, &mut notes, true);
        marks::age(&mut notes);
        more = down | up;
    }
}
