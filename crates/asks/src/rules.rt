// The rule of a form: what it asks of each row in its set.
ghost use Rattle.std.specs.Prelude.{ℕ, ◌<◌, Bool, ◌&&◌, ◌≡◌};
ghost use Rattle.program.specs.Test.{◌⇒◌, all};
ghost use Rattle.program.specs.Flow.{row, lies, for_each};
ghost use Rattle.store.specs.Rows.{store_program};
ghost use Rattle.tables.specs.Tables.{store_flow};
ghost use Rattle.sets.specs.Sets.{Sized, set_of};
ghost use Rattle.asks.specs.Asks.{Names, ask_of, store_asks};

use forms::form_at;
use members::has_row;
use program::Form;
use sets::{flow_lies, flow_set};

// What a form asks of each row in its set: its kind, and the names whose sets it compares with that of the row.
#[derive(Clone, Copy)]
pub enum Ask {
    First,
    Second,
    Case {
        left_name: u8,
        left_result: u8,
        right_name: u8,
        right_result: u8,
    },
    Apply(u8),
}

// The two names of a pair.
#[derive(Clone, Copy, PartialEq, Eq)]
enum Part {
    First,
    Second,
}

// Whether the set of name a lies in that of name x, and the set of name n in a set.
fn both_lie(store: &[u8], rows: u8, a: u8, x: u8, n: u8, to: &[u8]) -> bool
    requires { Sized rows store.now }
    ensures { let s = store.now in result ≡ lies (store_program rows s) (store_flow s a) (store_flow s x) && lies (store_program rows s) (store_flow s n) (set_of to.now) }
{
    flow_lies(store, rows, a, flow_set(store, x)) && flow_lies(store, rows, n, to)
}

// Whether row k passes a first or a second: that name of a pair.
#[tactic(auto, using(forms::proofs::Forms::pair_at_lem, forms::proofs::Forms::lacks_pair), unfolding(crate::specs::Asks::asks, crate::specs::Asks::ask_of, program::specs::Maybe::when))]
fn pair_passes(store: &[u8], rows: u8, part: Part, k: u8, to: &[u8]) -> bool
    requires { Sized rows store.now }
    ensures { result ≡ store_asks rows store.now (ask_of part) (set_of to.now) k }
{
    let Form::Pair { first, second } = form_at(store, rows, k) else {
        return true;
    };
    match part {
        Part::First => flow_lies(store, rows, first, to),
        Part::Second => flow_lies(store, rows, second, to),
    }
}

// Whether row k passes a case: the branch of a left or a right.
#[tactic(auto, using(forms::proofs::Forms::left_at_lem, forms::proofs::Forms::right_at_lem, forms::proofs::Forms::no_left, forms::proofs::Forms::no_right), unfolding(crate::specs::Asks::asks, program::specs::Maybe::when))]
fn case_passes(
    store: &[u8],
    rows: u8,
    left_name: u8,
    left_result: u8,
    right_name: u8,
    right_result: u8,
    k: u8,
    to: &[u8],
) -> bool
    requires { Sized rows store.now }
    ensures { result ≡ store_asks rows store.now (Ask.Case left_name left_result right_name right_result) (set_of to.now) k }
{
    match form_at(store, rows, k) {
        Form::Left { value } => both_lie(store, rows, value, left_name, left_result, to),
        Form::Right { value } => both_lie(store, rows, value, right_name, right_result, to),
        _ => true,
    }
}

// Whether row k passes an apply: a function's parameter and its result.
#[tactic(auto, using(forms::proofs::Forms::fun_at_lem, forms::proofs::Forms::no_fun), unfolding(crate::specs::Asks::asks, program::specs::Maybe::when, crate::specs::Asks::Names))]
fn apply_passes(store: &[u8], rows: u8, argument: u8, names: &[u8], k: u8, to: &[u8]) -> bool
    requires sized { Sized rows store.now }
    requires names { Names (store_program rows store.now) names.now }
    ensures { result ≡ store_asks rows store.now (Ask.Apply argument) (set_of to.now) k }
{
    let Form::Fun {
        parameter,
        body,
        ..
    } = form_at(store, rows, k)
    else {
        return true;
    };
    let result = read_text::byte_at(names, body as usize);
    both_lie(store, rows, argument, parameter, result, to)
}

// Whether each row that is in a set passes a test.
fn each<F: Fn(u8) -> bool>(set: &[u8], rows: u8, passes: F) -> bool
    requires { F.IsAlwaysCallable passes }
    ensures { (f : ℕ → Bool) → ((k : ℕ) (b : Bool) → k < rows → F.post passes k b → b ≡ f k) → result ≡ all rows λ r. set_of set.now (row r) ⇒ f r }
{
    for k in 0..rows {
        if has_row(set, k) && !passes(k) {
            return false;
        }
    }
    true
}

// Whether each row in the set of name a passes what a form asks.
pub fn each_passes(store: &[u8], rows: u8, ask: Ask, names: &[u8], a: u8, to: &[u8]) -> bool
    requires sized { Sized rows store.now }
    requires names { Names (store_program rows store.now) names.now }
    ensures { let bytes = store.now in result ≡ for_each (store_program rows bytes) (store_flow bytes a) (store_asks rows bytes ask (set_of to.now)) }
{
    let set = flow_set(store, a);
    match ask {
        Ask::First => each(set, rows, |k| pair_passes(store, rows, Part::First, k, to)),
        Ask::Second => each(set, rows, |k| pair_passes(store, rows, Part::Second, k, to)),
        Ask::Case {
            left_name,
            left_result,
            right_name,
            right_result,
        } => each(set, rows, |k| {
            case_passes(
                store,
                rows,
                left_name,
                left_result,
                right_name,
                right_result,
                k,
                to,
            )
        }),
        Ask::Apply(argument) => each(
            set,
            rows,
            |k| apply_passes(store, rows, argument, names, k, to),
        ),
    }
}
