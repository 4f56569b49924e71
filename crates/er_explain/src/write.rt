//! Writes an explanation.

ghost use Rattle.std.specs.Prelude.{◌≡◌, ◌++◌, length, codes, List, option_map, OnOk, OnErr};
ghost use Rattle.er_io.specs.Ends.{Gets, GetsPart, Puts};
ghost use Rattle.er_trace.specs.Trace.{line};
ghost use Rattle.er_syntax.specs.Buffered.{CountsFaults, HoldsRest};
ghost use Rattle.er_syntax.specs.Lines.{lines_from};
ghost use Rattle.er_explain.specs.Steps.{shown};
ghost use Rattle.er_explain.specs.Text.{head_line, step_line, body_lines, end_line, explain_text};

use crate::{Step, Steps};
use er_io::{Failed, Sink, WriteFault, put_all};
use er_syntax::tokens::{end_with_number, put_field, put_word};
use er_syntax::{Buffer, Text, flush, put_text};

/// Writes the steps from one action to another, or that there are none. It takes no memory.
pub fn write_steps<K: Sink>(
    sink: &mut K,
    from: u32,
    to: u32,
    steps: &Option<Steps>,
) -> Result<(), WriteFault>
    ensures { Puts K.got K.faults sink.old (explain_text from to steps.now) sink.new result }
{
    put_explanation(sink, from, to, steps)?;
    Ok(())
}

/// The same through a buffer.
#[tactic(auto, using(er_io::proofs::Puts::composes))]
fn put_explanation<K: Sink>(
    sink: &mut K,
    from: u32,
    to: u32,
    steps: &Option<Steps>,
) -> Result<(), Failed>
    ensures whole { OnOk result (Gets (K.got sink.old) (explain_text from to steps.now)
        (K.got sink.new)) }
    ensures part { OnErr result (GetsPart (K.got sink.old) (explain_text from to steps.now)
        (K.got sink.new)) }
    ensures counts { CountsFaults K.faults sink.old sink.new result }
{
    let mut buffer = Buffer::new();
    put_text(sink, &mut buffer, &Head { from, to })?;
    put_body(sink, &mut buffer, steps)?;
    put_text(sink, &mut buffer, &End)?;
    flush(sink, &mut buffer)
}

/// Puts a line for each step into the buffer, or one that says that there is no path.
fn put_body<K: Sink>(sink: &mut K, buffer: &mut Buffer, steps: &Option<Steps>) -> Result<(), Failed>
    ensures whole { OnOk result (HoldsRest (K.got sink.old) (buffer.old ++ body_lines steps.now)
        (K.got sink.new) buffer.new) }
    ensures part { OnErr result (GetsPart (K.got sink.old) (buffer.old ++ body_lines steps.now)
        (K.got sink.new)) }
    ensures counts { CountsFaults K.faults sink.old sink.new result }
{
    match steps {
        Some(steps) => put_steps(sink, buffer, steps),
        None => put_text(sink, buffer, &Unordered),
    }
}

/// Puts a line for each step into the buffer.
fn put_steps<K: Sink>(sink: &mut K, buffer: &mut Buffer, steps: &Steps) -> Result<(), Failed>
    ensures whole { OnOk result (HoldsRest (K.got sink.old)
        (buffer.old ++ lines_from step_line 1 steps.now) (K.got sink.new) buffer.new) }
    ensures part { OnErr result (GetsPart (K.got sink.old)
        (buffer.old ++ lines_from step_line 1 steps.now) (K.got sink.new)) }
    ensures counts { CountsFaults K.faults sink.old sink.new result }
{
    for k in 0..steps.len() {
        let step = steps.step(k);
        put_text(sink, buffer, &StepLine { step })?;
    }
    Ok(())
}

/// The first line.
#[derive(Drop)]
struct Head {
    from: u32,
    to: u32,
}

impl Text for Head {
    ghost text = { λ head. head_line head.from head.to };

    #[tactic(auto, using(er_io::proofs::Puts::composes, crate::proofs::TextLemmas::head_parts))]
    fn put<K: Sink>(&self, sink: &mut K) -> Result<(), Failed> {
        put_word(sink, "explain")?;
        put_field(sink, self.from as u64)?;
        end_with_number(sink, self.to as u64)
    }
}

/// The line of a step.
#[derive(Drop)]
struct StepLine {
    step: Step,
}

impl Text for StepLine {
    ghost text = { λ line. step_line 0 (shown line.step) };

    #[tactic(auto, using(er_io::proofs::Puts::composes, crate::proofs::TextLemmas::step_parts))]
    fn put<K: Sink>(&self, sink: &mut K) -> Result<(), Failed> {
        put_word(sink, "step")?;
        put_field(sink, self.step.from as u64)?;
        put_field(sink, self.step.to as u64)?;
        end_with_number(sink, self.step.rule as u64)
    }
}

/// The line where there is no path.
#[derive(Drop)]
struct Unordered;

impl Text for Unordered {
    ghost text = { λ _. line (codes "unordered") };

    fn put<K: Sink>(&self, sink: &mut K) -> Result<(), Failed> {
        put_all(sink, b"unordered\n")
    }
}

/// The last line.
#[derive(Drop)]
struct End;

impl Text for End {
    ghost text = { λ _. end_line };

    fn put<K: Sink>(&self, sink: &mut K) -> Result<(), Failed> {
        put_all(sink, b"end\n")
    }
}
