//! The generated trace of one round and of two: each function answers its text.

ghost use Rattle.std.specs.Prelude.{◌≡◌};
ghost use Rattle.er_trace.specs.Trace.{text};
ghost use Rattle.er_trace.specs.declared.version.Version.TheVariants.{One};
ghost use Rattle.er_gen.specs.Generated.{generated};

/// One round.
pub fn one_round() -> &'static str
    ensures { result.now ≡ text One (generated 1) }
{
    "webtrace 1\nparse 0 1 inline\nexec 1\non 1\non 2\nset 1 1\nset 2 0\nparse 0 2 plain\nw var 0 a\nfire 1 1 click\nrun 1 0 1\nw var 0 b\ninline 2 1 focus\nrun 2 0 2\nr var 0 b\nclose 2\nback 2\nw var 0 b\nclose 1\ntimer 2\nw var 0 a\ntimer 1\nr var 0 a\nend\n"
}

/// Two rounds.
pub fn two_rounds() -> &'static str
    ensures { result.now ≡ text One (generated 2) }
{
    "webtrace 1\nparse 0 1 inline\nexec 1\non 1\non 2\nset 1 1\nset 2 0\nparse 0 2 plain\nw var 0 a\nfire 1 1 click\nrun 1 0 1\nw var 0 b\ninline 2 1 focus\nrun 2 0 2\nr var 0 b\nclose 2\nback 2\nw var 0 b\nclose 1\nparse 0 3 plain\nw var 0 a\nfire 3 1 click\nrun 3 0 1\nw var 0 b\ninline 4 1 focus\nrun 4 0 2\nr var 0 b\nclose 4\nback 4\nw var 0 b\nclose 3\ntimer 2\nw var 0 a\ntimer 1\nr var 0 a\nend\n"
}
