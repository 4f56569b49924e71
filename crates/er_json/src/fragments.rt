//! The fragments in which a line of JSON is written.

ghost use Rattle.std.specs.Prelude.{◌≡◌, nat_lt};
ghost use Rattle.std.specs.List.{flat_map};
ghost use Rattle.serde_json.specs.Written.{comma_if};
ghost use Rattle.er_report.specs.Fragments.{both_at};
ghost use Rattle.er_json.specs.Json.{refusal};
ghost use Rattle.er_json.specs.Parts.{part_text};
ghost use Rattle.er_json.specs.Fragments.{before_groups, group_item, before_races, race_item, after_races};

use crate::parts::Part::{self, Location, Number, Plain};
use er_access::Access;
use er_report::Counts;
use er_text::Cause;
use er_trace::record::Loc;

/// What stands before the groups.
#[tactic(auto, unfolding(crate::specs::Fragments::before_groups))]
pub(crate) fn parts_before_groups(counts: &Counts) -> [Part<'static>; 7]
    ensures { flat_map part_text result ≡ before_groups counts.now }
{
    [
        Plain(r#"{"accesses":"#),
        Number(counts.accesses),
        Plain(r#","actions":"#),
        Number(counts.actions),
        Plain(r#","chains":"#),
        Number(counts.chains),
        Plain(r#","groups":["#),
    ]
}

/// A group, by its number, the place of its representative and its size.
pub(crate) fn parts_of_group(number: u64, representative: u32, size: u32) -> [Part<'static>; 6]
    ensures { flat_map part_text result ≡ group_item number (representative, size) }
{
    [
        Plain(comma_before(number)),
        Plain(r#"{"race":"#),
        Number(representative as u64 + 1),
        Plain(r#","size":"#),
        Number(size as u64),
        Plain("}"),
    ]
}

/// What stands between the groups and the races.
#[tactic(auto, unfolding(crate::specs::Fragments::before_races))]
pub(crate) fn parts_before_races(counts: &Counts) -> [Part<'static>; 5]
    ensures { flat_map part_text result ≡ before_races counts.now }
{
    [
        Plain(r#"],"links":"#),
        Number(counts.links),
        Plain(r#","pairs":"#),
        Number(counts.pairs),
        Plain(r#","races":["#),
    ]
}

/// A race of two accesses, by its number, with the place of the group that it names.
pub(crate) fn parts_of_race<'a>(
    number: u64,
    first: Access,
    second: Access,
    loc: &'a Loc,
    group: u32,
) -> [Part<'a>; 17]
    ensures { flat_map part_text result ≡ race_item number (both_at first second loc.now, group) }
{
    [
        Plain(comma_before(number)),
        Plain(r#"{"actions":["#),
        Number(first.action as u64),
        Plain(","),
        Number(second.action as u64),
        Plain(r#"],"group":"#),
        Number(group as u64 + 1),
        Plain(r#","lines":["#),
        Number(first.line as u64),
        Plain(","),
        Number(second.line as u64),
        Plain(r#"],"location":""#),
        Location(loc),
        Plain(r#"","modes":""#),
        Plain(first.mode.word()),
        Plain(second.mode.word()),
        Plain(r#""}"#),
    ]
}

/// What stands behind the races.
#[tactic(auto, unfolding(crate::specs::Fragments::after_races))]
pub(crate) fn parts_after_races() -> [Part<'static>; 1]
    ensures { flat_map part_text result ≡ after_races }
{
    [Plain("],\"version\":1}\n")]
}

/// The line of a refusal.
pub(crate) fn parts_of_refusal(line: u32, cause: Cause) -> [Part<'static>; 5]
    ensures { flat_map part_text result ≡ refusal line cause }
{
    [
        Plain(r#"{"refused":{"cause":""#),
        Plain(cause.name()),
        Plain(r#"","line":"#),
        Number(line as u64),
        Plain("}}\n"),
    ]
}

/// The comma before all members of an array but the first.
fn comma_before(number: u64) -> &'static str
    ensures { result.now ≡ comma_if (nat_lt 1 number) }
{
    if number > 1 { "," } else { "" }
}
