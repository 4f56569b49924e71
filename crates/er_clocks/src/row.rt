//! A row of numbers, one a chain, and 0 past its end.

ghost use Rattle.std.specs.Prelude.{◌≡◌, ◌≤◌, ◌<◌, ℕ, [], length, slice_index, IfOk, OnOk};
ghost use Rattle.er_paths.specs.Limits.{most_actions};
ghost use Rattle.er_clocks.specs.Rows.{IsRaised, IsSet};

use er_io::NoMemory;
use std::alloc::Global;
use std::marker::Model;

/// A number that is kept in a row or a list of links: none is greater than the number of actions.
pub(crate) type Number = u16;

/// Callers see the list of numbers.
#[derive(Drop)]
pub(crate) struct Row {
    numbers: Vec<Number>,
}

impl Model for Row {
    ghost use Rattle.std.specs.Prelude.{List, ℕ};

    ghost Value = { List ℕ };

    ghost view = { λ r. r.numbers.items };
}

impl Row {
    /// It takes no memory.
    pub(crate) fn new(alloc: Global) -> Self
        ensures { result ≡ [] }
    {
        Row {
            numbers: Vec::new(alloc),
        }
    }

    /// Takes no more memory than the numbers need.
    pub(crate) fn copied(alloc: Global, numbers: &[Number]) -> Result<Self, NoMemory>
        ensures { IfOk result (λ row. row ≡ numbers.now) }
    {
        let Ok(numbers) = Vec::from_slice(alloc, numbers) else {
            return Err(NoMemory);
        };
        Ok(Row { numbers })
    }

    /// A copy with another number at a chain. Takes no more memory than that needs.
    pub(crate) fn changed(
        alloc: Global,
        numbers: &[Number],
        chain: u32,
        number: u32,
    ) -> Result<Self, NoMemory>
        requires { number ≤ most_actions }
        ensures { IfOk result (λ row. IsSet numbers.now chain number row) }
    {
        let width = numbers.len().max(chain as usize + 1);
        let Ok(mut copy) = Vec::with_capacity(alloc, width) else {
            return Err(NoMemory);
        };
        if copy.extend_from_slice(numbers).is_err() {
            return Err(NoMemory);
        }
        let mut row = Row { numbers: copy };
        row.set(chain, number)?;
        Ok(row)
    }

    pub(crate) fn numbers(&self) -> &[Number]
        ensures { result.now ≡ self.now }
    {
        self.numbers.as_slice()
    }

    /// Raises each number to that of the other row.
    pub(crate) fn raise(&mut self, other: &[Number]) -> Result<(), NoMemory>
        ensures { OnOk result (IsRaised self.old other.now self.new) }
    {
        widen(&mut self.numbers, other.len())?;
        raise_numbers(&mut self.numbers, other);
        Ok(())
    }

    /// Sets the number at a chain.
    pub(crate) fn set(&mut self, chain: u32, number: u32) -> Result<(), NoMemory>
        requires { number ≤ most_actions }
        ensures { OnOk result (IsSet self.old chain number self.new) }
    {
        widen(&mut self.numbers, chain as usize + 1)?;
        set_number(&mut self.numbers, chain as usize, number as Number);
        Ok(())
    }
}

/// The number at a chain: 0 past the end.
pub(crate) fn number_at(numbers: &[Number], chain: u32) -> u32
    ensures { result ≡ slice_index numbers.now chain }
{
    let chain = chain as usize;
    if chain < numbers.len() {
        u32::from(numbers[chain])
    } else {
        0
    }
}

/// A copy of this length, with zeros behind the row.
pub(crate) fn copied_to(
    alloc: Global,
    numbers: &[Number],
    len: usize,
) -> Result<Vec<Number>, NoMemory>
    ensures long { IfOk result (λ copy. length copy.items ≡ len) }
    ensures same { IfOk result
        (λ copy. (c : ℕ) → c < len → slice_index copy.items c ≡ slice_index numbers.now c) }
{
    let Ok(mut copy) = Vec::with_capacity(alloc, len) else {
        return Err(NoMemory);
    };
    if copy.extend_from_slice(numbers).is_err() {
        return Err(NoMemory);
    }
    if copy.resize(len, 0).is_err() {
        return Err(NoMemory);
    }
    Ok(copy)
}

/// Writes out zeros up to this length.
fn widen(numbers: &mut Vec<Number>, len: usize) -> Result<(), NoMemory>
    ensures wide { OnOk result (len ≤ length numbers.new.items) }
    ensures same { OnOk result
        ((c : ℕ) → slice_index numbers.new.items c ≡ slice_index numbers.old.items c) }
{
    if numbers.len() < len {
        if numbers.resize(len, 0).is_err() {
            return Err(NoMemory);
        }
    }
    Ok(())
}

fn raise_numbers(numbers: &mut [Number], more: &[Number])
    requires { length more.now ≤ length numbers.old }
    ensures { IsRaised numbers.old more.now numbers.new }
{
    for c in 0..more.len() {
        numbers[c] = numbers[c].max(more[c]);
    }
}

fn set_number(numbers: &mut [Number], chain: usize, number: Number)
    requires { chain < length numbers.old }
    ensures { IsSet numbers.old chain number numbers.new }
{
    numbers[chain] = number;
}
