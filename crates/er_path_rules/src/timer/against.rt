//! Whether a record comes too late: a rule leads from its event back to one that has begun.

ghost use Rattle.std.specs.Prelude.{◌≡◌, ℕ, Bool, List};
ghost use Rattle.er_trace.specs.declared.record.Record.{Record};
ghost use Rattle.er_trace.specs.declared.version.Version.{Version};
ghost use Rattle.er_history.specs.History.{told};
ghost use Rattle.er_history.specs.Rules.{timer_rules};
ghost use Rattle.er_history.specs.Sound.{leads_back};

use er_page::page::Page;
use er_trace::record::Record;

/// Whether a rule from 18 to 20 leads from the event that the record would begin to one that has
/// begun. It takes no memory.
///
/// It never does: the event that set a timeout or an interval has begun, and callbacks are ordered
/// as they are recorded.
#[tactic(auto, using(er_history::proofs::OrderLemmas::timer_rules_never_lead_back))]
pub fn against(page: &Page, rec: &Record) -> bool
    ensures { (v : Version) (joined : ℕ → ℕ → Bool) (h : List Record)
        → result ≡ leads_back (timer_rules v) joined (told h) rec.now }
{
    false
}
