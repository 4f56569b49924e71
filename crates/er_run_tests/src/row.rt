//! A row of a table: a trace, and the report or the refusal that is due for it; a
//! command, and its answer.

use crate::through::{Call, Done, SOUND, through};
use std::alloc::{AllocError, Global};
use std::thread::Threads;

/// A legal trace, and what its report says.
pub(crate) struct Row {
    pub(crate) trace: &'static str,
    /// The lines of the races.
    pub(crate) races: &'static str,
    /// The lines of what each race names, and of the groups.
    pub(crate) groups: &'static str,
    pub(crate) counts: Counts,
}

/// The counts of a report, in its order.
#[derive(Clone, Copy)]
pub(crate) struct Counts {
    pub(crate) actions: u64,
    pub(crate) accesses: u64,
    pub(crate) pairs: u64,
    pub(crate) races: u64,
    pub(crate) groups: u64,
    pub(crate) chains: u64,
    pub(crate) links: u64,
}

/// An illegal trace, its first illegal line and the first cause against it.
pub(crate) struct Refusal {
    pub(crate) trace: &'static str,
    pub(crate) line: u32,
    pub(crate) cause: &'static str,
}

/// The words of a command, an input, what is written for it, and how often pairs are compared.
#[derive(Clone, Copy)]
pub(crate) struct Asked {
    pub(crate) words: &'static str,
    pub(crate) input: &'static str,
    pub(crate) written: &'static str,
    pub(crate) status: u8,
    pub(crate) compares: u64,
}

impl Row {
    /// The report that is due.
    pub(crate) fn report(&self, alloc: Global) -> Result<String, AllocError> {
        report(alloc, self.races, self.groups, &self.counts)
    }

    /// The status that is due.
    pub(crate) fn status(&self) -> u8 {
        if self.counts.races == 0 { 0 } else { 1 }
    }
}

impl Refusal {
    /// The refusal that is due.
    pub(crate) fn text(&self, alloc: Global) -> Result<String, AllocError> {
        format!(in alloc; "refused {} {}\n", self.line, self.cause)
    }
}

impl Asked {
    /// The call of the command, with streams that never fail.
    pub(crate) fn call(&self) -> Call<'static, 'static> {
        Call {
            words: self.words,
            input: self.input,
            ..SOUND
        }
    }

    /// What comes of that call.
    pub(crate) fn answer(
        &self,
        rt: &(impl Threads + Sync),
        alloc: Global,
    ) -> Result<Done, AllocError> {
        through(rt, alloc, &self.call(), self.written)
    }

    /// Whether this is due.
    pub(crate) fn is_due(&self, done: &Done) -> bool {
        done.is_whole(self.status) && done.compares == self.compares
    }
}

/// The text of a report with these lines of races and of groups, and these counts.
pub(crate) fn report(
    alloc: Global,
    races: &str,
    groups: &str,
    counts: &Counts,
) -> Result<String, AllocError> {
    format!(in alloc;
        "report 1\n{races}{groups}actions {}\naccesses {}\npairs {}\nraces {}\ngroups {}\nchains {}\nlinks {}\nend\n",
        counts.actions,
        counts.accesses,
        counts.pairs,
        counts.races,
        counts.groups,
        counts.chains,
        counts.links
    )
}
