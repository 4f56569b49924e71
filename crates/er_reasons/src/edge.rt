//! The rule that makes an edge.

ghost use Rattle.std.specs.Prelude.{◌≡◌, ℕ, List};
ghost use Rattle.er_trace.specs.declared.record.Record.{Record};
ghost use Rattle.er_paths.specs.Paths.{joins};
ghost use Rattle.er_history.specs.Rules.{rules};
ghost use Rattle.er_history.specs.Edges.{up_to};
ghost use Rattle.er_clocks.specs.Clock.{StandsFor};
ghost use Rattle.er_page.specs.Page.{IsPage, HasBegun};
ghost use Rattle.er_path_rules.specs.timer.Timed.{IsTimed};
ghost use Rattle.er_pieces.specs.steps.Steps.{least_rule, rule_of_events, rule_of};
ghost use Rattle.er_reasons.specs.Shown.{least, rule_shown};

use crate::dispatch::dispatch_rule;
use crate::event::Event;
use crate::load::load_rule;
use crate::numbers::lesser;
use crate::parse::parse_rule;
use crate::pieces::piece_rule;
use crate::read::event_at;
use crate::request::request_rule;
use crate::script::script_rule;
use crate::task::task_rule;
use crate::timer::timer_rule;
use er_clocks::Clocks;
use er_page::page::Page;
use er_trace::version::Version;

/// The least number of a rule of the version that makes an edge from action i to action j. It takes
/// no memory. The clocks are those of the page's actions in this version.
///
/// Each rule is asked of the two events alone, and of one path at most, so it costs some
/// look-ups, however many actions there are; before a close, rule 31 goes through the
/// jobs that began in the dispatch.
pub fn reason(page: &Page, clocks: &Clocks, version: Version, i: u32, j: u32) -> Option<u32>
    requires first { ∥ HasBegun page.now i ∥₁ }
    requires second { ∥ HasBegun page.now j ∥₁ }
    ensures { (h : List Record) → IsTimed version page.now clocks.now h
        → result ≡ rule_of (rules version) h i j }
{
    if i >= j {
        return None;
    }
    let u = event_at(page, i);
    let v = event_at(page, j);
    let between = event_rule(page, clocks, version, &u, &v);
    lesser(between, piece_rule(i, &u, j, &v, page.begin_of(j)))
}

/// The least number of a rule of the version between events that holds from u to v.
fn event_rule(
    page: &Page,
    clocks: &Clocks,
    version: Version,
    u: &Event<'_>,
    v: &Event<'_>,
) -> Option<u32>
    ensures { (h : List Record) (lists : List (List ℕ)) → IsPage page.now h
        → StandsFor clocks.now lists
        → result ≡ rule_shown (rules version) (up_to v.now.number (joins lists)) h u.now v.now }
{
    if u.number == v.number {
        return None;
    }
    any_rule(page, clocks, version, u, v)
}

/// The same of two different events. A family of rules is a line.
fn any_rule(
    page: &Page,
    clocks: &Clocks,
    version: Version,
    u: &Event<'_>,
    v: &Event<'_>,
) -> Option<u32>
    ensures { (h : List Record) (lists : List (List ℕ)) → IsPage page.now h
        → StandsFor clocks.now lists
        → result ≡ least (rules version) (up_to v.now.number (joins lists)) h u.now v.now }
{
    let parse = parse_rule(u, v);
    let script = lesser(parse, script_rule(u, v));
    let load = lesser(script, load_rule(u, v));
    let dispatch = lesser(load, dispatch_rule(u, v));
    let timer = lesser(dispatch, timer_rule(page, clocks, version, u, v));
    let request = lesser(timer, request_rule(u, v));
    lesser(request, task_rule(page, clocks, u, v))
}
