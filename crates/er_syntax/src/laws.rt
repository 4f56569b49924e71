//! Laws of the definitions that the contracts cite. Each is a function that does nothing, whose
//! contract is the law.

ghost use Rattle.std.specs.Prelude.{◌≡◌, List};
ghost use Rattle.std.specs.List.{AllByRecursion};
ghost use Rattle.er_trace.specs.declared.record.Record.{Record};
ghost use Rattle.er_trace.specs.declared.version.Version.{Version};
ghost use Rattle.er_trace.specs.Spelling.{spelling, IsRecord};
ghost use Rattle.er_trace.specs.Trace.{text};

/// One spelling has one record.
pub fn one_record()
    ensures { (x y : Record) → IsRecord x → IsRecord y → spelling x ≡ spelling y → x ≡ y }
{}

/// One text has one version and one list of records, however many they are.
pub fn one_trace()
    ensures { (v w : Version) (a b : List Record) → AllByRecursion IsRecord a
        → AllByRecursion IsRecord b → text v a ≡ text w b → (v ≡ w) × (a ≡ b) }
{}
