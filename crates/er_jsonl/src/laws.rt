//! Laws of the definitions that the contracts cite. Each is a function that does nothing, whose
//! contract is the law.

ghost use Rattle.std.specs.Prelude.{◌≡◌, ◌≢◌, ℕ, ◌+◌, List, ◌++◌};
ghost use Rattle.er_text.specs.Bytes.{count_of_lf};
ghost use Rattle.er_text.specs.declared.causes.Cause.{Cause};
ghost use Rattle.er_text.specs.declared.causes.Cause.TheVariants.{NoEnd};
ghost use Rattle.er_trace.specs.declared.record.Record.{Record};
ghost use Rattle.er_trace.specs.declared.version.Version.{Version};
ghost use Rattle.er_lines.specs.Lines.{Place, line_number};
ghost use Rattle.er_lines.specs.json_line.Members.{Spells, IsEnd};
ghost use Rattle.er_jsonl.specs.Trace.{IsTrace, Refuses};

/// A line spells at most one record, and the last line none.
pub fn one_record()
    ensures one { (line : List ℕ) (x y : Record) → Spells line x → Spells line y → x ≡ y }
    ensures not_end { (line : List ℕ) (x : Record) → Spells line x → ¬ IsEnd line }
{}

/// The bytes of a trace have one version and one list of records.
pub fn one_trace()
    ensures { (bytes : List ℕ) (v w : Version) (a b : List Record)
        → IsTrace v bytes a → IsTrace w bytes b
        → (v ≡ w) × (a ≡ b) }
{}

/// Bytes are refused at one place, for one cause. A whole trace is not refused.
pub fn one_cause()
    ensures place { (bytes : List ℕ) (p q : Place) (c d : Cause)
        → Refuses bytes p c → Refuses bytes q d
        → p ≡ q }
    ensures cause { (bytes : List ℕ) (p q : Place) (c d : Cause)
        → Refuses bytes p c → Refuses bytes q d
        → c ≡ d }
    ensures never { (v : Version) (bytes : List ℕ) (records : List Record) (p : Place) (c : Cause)
        → IsTrace v bytes records → ¬ Refuses bytes p c }
{}

/// A refusal for another cause than `no-end` is that of every longer input.
pub fn longer_input()
    ensures { (bytes more : List ℕ) (place : Place) (c : Cause) → Refuses bytes place c → c ≢ NoEnd
        → Refuses (bytes ++ more) place c }
{}

/// The line of `no-end` is one more than the LFs of the bytes.
pub fn line_of_no_end()
    ensures { (bytes : List ℕ) (place : Place) → Refuses bytes place NoEnd
        → line_number place ≡ count_of_lf bytes + 1 }
{}
