//! Laws of the definitions that the contracts cite, for every format. Each is a function that does
//! nothing, whose contract is the law.

ghost use Rattle.std.specs.Prelude.{◌≡◌, ◌≢◌, true, ℕ, ◌+◌, ◌<◌, List, ◌++◌, length, Option, None};
ghost use Rattle.std.specs.List.{list_all};
ghost use Rattle.er_text.specs.Bytes.{count_of_lf};
ghost use Rattle.er_text.specs.declared.causes.Cause.{Cause};
ghost use Rattle.er_text.specs.declared.causes.Cause.TheVariants.{NoEnd};
ghost use Rattle.er_trace.specs.declared.record.Record.{Record};
ghost use Rattle.er_trace.specs.declared.version.Version.{Version};
ghost use Rattle.er_lines.specs.Lines.{Place, line_number, AreBefore, IsTrace, IsCutTrace, BeginsWith, Refuses};
ghost use Rattle.er_lines.specs.Feed.{Stands};
ghost use Rattle.er_lines.specs.declared.mark.Mark.{Mark};
ghost use Rattle.er_trace.specs.declared.fault.FeedFault.{FeedFault};
ghost use Rattle.er_trace.specs.Trace as texts;
ghost use Rattle.er_trace.specs.Versions.{has_record};
ghost use Rattle.er_lines.specs.Text.{text};

use crate::format::Lines;

/// The bytes of a trace have one version and one list of records.
pub fn one_trace<L: Lines>()
    ensures { (bytes : List ℕ) (v w : Version) (a b : List Record) → IsTrace L.format v bytes a
        → IsTrace L.format w bytes b → (v ≡ w) × (a ≡ b) }
{}

/// Bytes are refused at one place, for one cause. A whole trace is not refused.
pub fn one_cause<L: Lines>()
    ensures place { (bytes : List ℕ) (p q : Place) (c d : Cause) → Refuses L.format bytes p c
        → Refuses L.format bytes q d → p ≡ q }
    ensures cause { (bytes : List ℕ) (p q : Place) (c d : Cause) → Refuses L.format bytes p c
        → Refuses L.format bytes q d → c ≡ d }
    ensures never { (v : Version) (bytes : List ℕ) (records : List Record) (p : Place) (c : Cause)
        → IsTrace L.format v bytes records → ¬ Refuses L.format bytes p c }
{}

/// The whole traces of lines of text are the texts of er_trace.
pub fn text_traces()
    ensures to { (v : Version) (bytes : List ℕ) (records : List Record)
        → IsTrace text v bytes records
        → texts.IsTrace v records × (bytes ≡ texts.text v records) }
    ensures from { (v : Version) (records : List Record) → texts.IsTrace v records
        → IsTrace text v (texts.text v records) records }
{}

/// The first line gives one version.
pub fn one_version<L: Lines>()
    ensures { (bytes : List ℕ) (v w : Version) → BeginsWith L.format v bytes
        → BeginsWith L.format w bytes → v ≡ w }
{}

/// The records of a trace are of the version that its first line gives.
pub fn records_of_version<L: Lines>()
    ensures { (v : Version) (bytes : List ℕ) (records : List Record)
        → IsTrace L.format v bytes records
        → list_all (has_record v) records ≡ true }
{}

/// The number of a line is one more than that of the LFs before it.
pub fn line_of_a_place<L: Lines>()
    ensures { (p : Place) (bytes : List ℕ) → AreBefore L.format p bytes
        → line_number p ≡ count_of_lf bytes + 1 }
{}

/// A refusal for another cause than `no-end` is that of every longer input.
pub fn longer_input<L: Lines>()
    ensures { (bytes more : List ℕ) (place : Place) (c : Cause)
        → Refuses L.format bytes place c → c ≢ NoEnd
        → Refuses L.format (bytes ++ more) place c }
{}

/// A trace without some of its last bytes is refused for `no-end`, at its first line or behind the
/// lines of some of its records.
pub fn cut_trace<L: Lines>()
    ensures { (v : Version) (records : List Record) (bytes more : List ℕ)
        → IsTrace L.format v (bytes ++ more) records → 0 < length more
        → IsCutTrace L.format v records bytes }
{}

/// The line of `no-end` is one more than the LFs of the bytes.
pub fn line_of_no_end<L: Lines>()
    ensures { (bytes : List ℕ) (place : Place) → Refuses L.format bytes place NoEnd
        → line_number place ≡ count_of_lf bytes + 1 }
{}

/// What stands for the same bytes stands for the same records and keeps the same, however the bytes
/// were cut.
pub fn one_feed<L: Lines>()
    ensures records { (m n : Mark) (k l bytes : List ℕ) (g h : Option FeedFault) (a b : List Record)
        → Stands L.format m k g bytes a → Stands L.format n l h bytes b → a ≡ b }
    ensures mark { (m n : Mark) (k l bytes : List ℕ) (g h : Option FeedFault) (a b : List Record)
        → Stands L.format m k g bytes a → Stands L.format n l h bytes b → m ≡ n }
    ensures fault { (m n : Mark) (k l bytes : List ℕ) (g h : Option FeedFault) (a b : List Record)
        → Stands L.format m k g bytes a → Stands L.format n l h bytes b → g ≡ h }
    ensures line { (m n : Mark) (k l bytes : List ℕ) (g h : Option FeedFault) (a b : List Record)
        → Stands L.format m k g bytes a → Stands L.format n l h bytes b → g ≡ None → k ≡ l }
{}
