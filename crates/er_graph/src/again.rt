//! A next action before which the same actions come as before the newest. They are not gone
//! through: the links of the newest stand for them.

ghost use Rattle.std.specs.Prelude.{◌≡◌, List};
ghost use Rattle.er_trace.specs.declared.record.Record.{Record};
ghost use Rattle.er_trace.specs.declared.record.Record.TheVariants.{Run};
ghost use Rattle.er_page.specs.Page.{IsPage, IsSomePage};
ghost use Rattle.er_graph.specs.Again.{is_same_maker, are_peers, is_peer_of_newest};

use er_page::page::Page;
use er_trace::record::Record;

/// Whether the record runs a peer of the handler that the newest action runs: one of the same
/// group, which the same event registered. It takes no memory.
pub(crate) fn follows_peer(page: &Page, rec: &Record) -> bool
    requires some { ∥ IsSomePage page.now ∥₁ }
    ensures { (h : List Record) → IsPage page.now h → result ≡ is_peer_of_newest h rec.now }
{
    let Some(newest) = page.running() else {
        return false;
    };
    run_peers(page, page.begin_of(newest), rec)
}

/// Whether both run a handler of one group of one dispatch, and one event registered these.
fn run_peers(page: &Page, first: &Record, second: &Record) -> bool
    ensures { (h : List Record) → IsPage page.now h
        → result ≡ are_peers h first.now second.now }
{
    match first {
        Record::Run {
            dispatch,
            group,
            handler,
        } => is_peer_of(page, *dispatch, *group, *handler, second),
        _ => false,
    }
}

/// Whether the second record runs such a peer of this handler.
fn is_peer_of(page: &Page, dispatch: u32, group: u32, handler: u32, second: &Record) -> bool
    ensures { (h : List Record) → IsPage page.now h
        → result ≡ are_peers h (Run dispatch group handler) second.now }
{
    match second {
        Record::Run {
            dispatch: other,
            group: level,
            handler: next,
        } => {
            let maker = page.maker_of_handler(handler);
            let maker_of_next = page.maker_of_handler(*next);
            (dispatch == *other) & (group == *level) & have_same_maker(maker, maker_of_next)
        }
        _ => false,
    }
}

/// Whether both have a maker, and it is one event.
fn have_same_maker(first: Option<u32>, second: Option<u32>) -> bool
    ensures { result ≡ is_same_maker first second }
{
    match (first, second) {
        (Some(first), Some(second)) => first == second,
        _ => false,
    }
}
