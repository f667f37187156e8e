// The result rows of a program in a store: for each row, the result row that is reached from it by rests.
#![tactic(auto)]

ghost use Rattle.std.specs.Prelude.{true, ◌≡◌, ◌+◌, ◌<◌, ◌≤◌, length};
ghost use Rattle.program.specs.Program.{Program, result_row};
ghost use Rattle.format.specs.Limits.{row_limit};
ghost use Rattle.store.specs.Rows.{store_program};
ghost use Rattle.results.specs.Results.{rest_rises, Rising, ResultsFrom, ResultRows};

use forms::row_in;
use program::Row;
use store::Store;

// The result row that is reached from row t, rest by rest.
#[tactic(auto, using(crate::proofs::Following::result_none, crate::proofs::Following::result_end, crate::proofs::Following::follow_step, crate::proofs::Following::result_steps))]
fn follow(store: &[u8], rows: u8, t: u8) -> u8
    ensures { result ≡ result_row (store_program rows store.now) t }
{
    let mut r = t;
    for _ in 0..rows {
        let Row::Bind(b) = row_in(store, rows, r) else {
            return r;
        };
        r = b.rest;
    }
    r
}

// Whether the rest of row r, where it has one, is a greater row that is there.
#[tactic(auto, using(store::proofs::Laws::program_length), unfolding(crate::specs::Results::rest_rises, program::specs::Program::bind_at, program::specs::Program::bind_of, program::specs::Maybe::when))]
fn rest_rises(store: &[u8], rows: u8, r: u8) -> bool
    ensures { result ≡ rest_rises (store_program rows store.now) r }
{
    let Row::Bind(b) = row_in(store, rows, r) else {
        return true;
    };
    r < b.rest && b.rest < rows
}

// Whether all rests rise.
fn rests_rise(store: &[u8], rows: u8) -> bool
    ensures { result ≡ true → Rising (store_program rows store.now) rows }
{
    (0..rows).all(|r| rest_rises(store, rows, r))
}

// The result row of row t, told by those of the greater rows, where all rests rise.
#[tactic(auto, using(crate::proofs::Following::result_self, crate::proofs::Following::rest_told))]
fn from_rest(store: &[u8], rows: u8, results: &[u8], t: u8) -> u8
    requires t_lt_rows { t < rows }
    requires rising { Rising (store_program rows store.now) rows }
    requires results_from { ResultsFrom (store_program rows store.now) (t + 1) rows results.now }
    ensures { result ≡ result_row (store_program rows store.now) t }
{
    let Row::Bind(b) = row_in(store, rows, t) else {
        return t;
    };
    read_text::byte_at(results, b.rest as usize)
}

// The result row of row t: told by those of the greater rows if all rests rise, else rest by rest.
fn result_at(store: &[u8], rows: u8, rising: bool, results: &[u8], t: u8) -> u8
    requires t_lt_rows { t < rows }
    requires rising { rising ≡ true → Rising (store_program rows store.now) rows }
    requires results_from { ResultsFrom (store_program rows store.now) (t + 1) rows results.now }
    ensures { result ≡ result_row (store_program rows store.now) t }
{
    if rising {
        return from_rest(store, rows, results, t);
    }
    follow(store, rows, t)
}

// The result rows of all rows. In a program whose rests rise, as they do in a sound store, each is found in one step.
pub fn result_rows(store: &[u8], rows: u8) -> [u8; Store::ROWS]
    requires { rows ≤ row_limit }
    ensures { ResultRows (store_program rows store.now) rows result }
{
    let rising = rests_rise(store, rows);
    let mut results = [0u8; Store::ROWS];
    for t in (0..rows).rev() {
        results[t as usize] = result_at(store, rows, rising, &results, t);
    }
    results
}

// The result row of row t, told by those of all rows; a row that is not there is its own.
#[tactic(auto, using(crate::proofs::Following::result_past))]
pub fn result_of(rows: u8, results: &[u8], t: u8) -> u8
    ensures { (p : Program) → length p ≡ rows → ResultRows p rows results.now → result ≡ result_row p t }
{
    if rows <= t {
        return t;
    }
    read_text::byte_at(results, t as usize)
}
