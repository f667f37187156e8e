// The results that the rows of the program in a store come to.
ghost use Rattle.std.specs.Prelude.{◌≡◌};
ghost use Rattle.program.specs.Program.{name_of};
ghost use Rattle.store.specs.Rows.{store_program};
ghost use Rattle.sets.specs.Sets.{Sized};
ghost use Rattle.asks.specs.Asks.{Names};

use forms::row_in;
use program::Row;
use results::result_rows;
use store::Store;

// The name of a row: that of a result, or the one that a bind binds.
#[tactic(auto, unfolding(program::specs::Program::name_of))]
fn name_of(row: Row) -> u8
    ensures { result ≡ name_of row }
{
    match row {
        Row::Result(n) => n,
        Row::Bind(b) => b.name,
    }
}

// The names of the results reached from the rows.
pub fn result_names(store: &[u8], rows: u8) -> [u8; Store::ROWS]
    requires { Sized rows store.now }
    ensures { Names (store_program rows store.now) result }
{
    let results = result_rows(store, rows);
    let mut names = [0u8; Store::ROWS];
    for t in 0..rows {
        let i = t as usize;
        names[i] = name_of(row_in(store, rows, results[i]));
    }
    names
}
