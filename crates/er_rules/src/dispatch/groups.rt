//! What is handed of the handlers of a dispatch that have run.

ghost use Rattle.std.specs.Prelude.{◌≡◌, List, OnOk, OnErr};
ghost use Rattle.er_trace.specs.declared.record.Record.{Record};
ghost use Rattle.er_history.specs.History.{told};
ghost use Rattle.er_page.specs.Page.{IsPage, IsSomePage};
ghost use Rattle.er_pieces.specs.Contract.{GrewForEach, GrewInPartForEach};
ghost use Rattle.er_pieces.specs.HandedPieces.{runs_or_begin};
ghost use Rattle.er_rules.specs.dispatch.Due.{before_run};

use er_io::NoMemory;
use er_page::handing::{hand_each, hand_latest};
use er_page::page::Page;
use smallvec::SmallVec;

/// Hands the runs of the group, or the begin of the dispatch where there is none (rule 16).
pub(crate) fn hand_group(
    page: &Page,
    dispatch: u32,
    group: Option<u32>,
    out: &mut SmallVec<u32, 8>,
) -> Result<(), NoMemory>
    requires some { ∥ IsSomePage page.now ∥₁ }
    ensures whole { OnOk result (GrewForEach (IsPage page.now)
        (λ h. runs_or_begin dispatch (told h).actions group) out.old.items out.new.items) }
    ensures part { OnErr result (GrewInPartForEach (IsPage page.now)
        (λ h. runs_or_begin dispatch (told h).actions group) out.old.items out.new.items) }
{
    match group {
        Some(group) => hand_each(page, page.runs_in(dispatch, group), out),
        None => hand_latest(page, page.begin_event(dispatch), out),
    }
}

/// Hands what comes before the run of a handler: the event that registered it (rule 15), and what
/// ran in the smaller groups (rule 16).
pub(crate) fn hand_for_run(
    page: &Page,
    dispatch: u32,
    group: u32,
    handler: u32,
    out: &mut SmallVec<u32, 8>,
) -> Result<(), NoMemory>
    requires some { ∥ IsSomePage page.now ∥₁ }
    ensures whole { OnOk result (GrewForEach (IsPage page.now)
        (λ h. before_run h dispatch group handler) out.old.items out.new.items) }
    ensures part { OnErr result (GrewInPartForEach (IsPage page.now)
        (λ h. before_run h dispatch group handler) out.old.items out.new.items) }
{
    hand_latest(page, page.maker_of_handler(handler), out)?;
    hand_group(page, dispatch, page.group_below(dispatch, group), out)
}
