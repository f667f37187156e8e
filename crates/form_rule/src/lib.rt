// The flow rule of a form over the sets of a store.
#![tactic(auto)]

ghost use Rattle.std.specs.Prelude.{true, false, ◌&&◌, ◌≡◌};
ghost use Rattle.program.specs.Flow.{row, keeps_form};
ghost use Rattle.store.specs.Rows.{store_program};
ghost use Rattle.tables.specs.Tables.{store_flow, store_comm};
ghost use Rattle.sets.specs.Sets.{Sized};
ghost use Rattle.channel_asks.specs.Channels.{Sends};
ghost use Rattle.asks.specs.Asks.{Names};

use asks::{Ask, each_passes};
use members::{has_row, has_unit};
use program::Form;
use sets::flow_set;
use sync_rule::keeps_sync;

// Whether row r keeps the rule of its form, where its bind has the name n. The last arm is that of the value rows other than fun.
#[tactic(auto, unfolding(program::specs::Flow::keeps_form, sync_rule::specs::Rules::sync_test, program::specs::Flow::send_rule, program::specs::Flow::recv_rule, channel_asks::specs::Channels::send_test, sync_rule::specs::Rules::recv_test, asks::specs::Asks::asks, asks::specs::Asks::Names))]
pub fn keeps_form(
    store: &[u8],
    rows: u8,
    r: u8,
    n: u8,
    form: Form,
    names: &[u8],
    with: &[u8],
    without: &[u8],
) -> bool
    requires sized { Sized rows store.now }
    requires names { Names (store_program rows store.now) names.now }
    requires sends { Sends rows store.now true with.now }
    requires sends_2 { Sends rows store.now false without.now }
    ensures { let bytes = store.now in result ≡ keeps_form (store_program rows bytes) (store_flow bytes) (store_comm bytes) r n form }
{
    let to = flow_set(store, n);
    match form {
        Form::Unit => has_unit(to),
        Form::Fun { own, .. } => has_row(to, r) && has_row(flow_set(store, own), r),
        Form::Spawn { .. } => has_unit(to),
        Form::Sync { event } => keeps_sync(store, rows, n, event, with, without),
        Form::First { pair } => each_passes(store, rows, Ask::First, names, pair, to),
        Form::Second { pair } => each_passes(store, rows, Ask::Second, names, pair, to),
        Form::Case {
            subject,
            left_name,
            left,
            right_name,
            right,
        } => {
            let left_result = read_text::byte_at(names, left as usize);
            let right_result = read_text::byte_at(names, right as usize);
            let ask = Ask::Case {
                left_name,
                left_result,
                right_name,
                right_result,
            };
            each_passes(store, rows, ask, names, subject, to)
        }
        Form::Apply { function, argument } => each_passes(
            store,
            rows,
            Ask::Apply(argument),
            names,
            function,
            to,
        ),
        _ => has_row(to, r),
    }
}
