//! A list of links.

ghost use Rattle.std.specs.Prelude.{◌≡◌, ◌≤◌, [], ◌∷◌, length, IfOk};
ghost use Rattle.er_clocks.specs.InPlace.{numbers_of, AreInPlace};

use crate::row::Number;
use er_io::NoMemory;
use std::alloc::Global;
use std::marker::Model;

/// So many links need no memory: most actions have one or two.
const MOST_IN_PLACE: usize = 6;

/// Where the links are.
#[derive(Drop)]
pub(crate) enum Held {
    /// In place: the first so many of these.
    Few(u8, [Number; MOST_IN_PLACE]),
    Many(Box<Vec<Number>>),
}

/// The sources of the links into an action, ascending. Callers see the list of numbers.
pub(crate) struct LinkList {
    held: Held,
}

impl Drop for LinkList {
    fn drop(self) {
        let LinkList { held: _ } = self;
    }
}

impl Model for LinkList {
    ghost use Rattle.std.specs.Prelude.{List, ℕ};
    ghost use Rattle.er_clocks.specs.InPlace.{numbers_of, AreInPlace};

    ghost Value = { List ℕ };

    ghost view = { λ l. numbers_of l.held };

    ghost invariant = { λ l. AreInPlace l.held };
}

/// These, in place.
fn in_place(numbers: &[Number]) -> Held
    requires { length numbers.now ≤ MOST_IN_PLACE }
    ensures numbers { numbers_of result ≡ numbers.now }
    ensures held { AreInPlace result }
{
    let mut place = [0; MOST_IN_PLACE];
    place[..numbers.len()].copy_from_slice(numbers);
    Held::Few(numbers.len() as u8, place)
}

/// These, in memory of their own.
fn apart(alloc: Global, numbers: &[Number]) -> Result<Held, NoMemory>
    ensures numbers { IfOk result (λ held. numbers_of held ≡ numbers.now) }
    ensures held { IfOk result AreInPlace }
{
    let Ok(numbers) = Vec::from_slice(alloc, numbers) else {
        return Err(NoMemory);
    };
    let Ok(many) = Box::new(alloc, numbers) else {
        return Err(NoMemory);
    };
    Ok(Held::Many(many))
}

impl LinkList {
    /// One link alone, which needs no memory.
    pub(crate) fn one(number: Number) -> Self
        ensures { result ≡ number ∷ [] }
    {
        LinkList {
            held: Held::Few(1, [number, 0, 0, 0, 0, 0]),
        }
    }

    /// Takes no more memory than the numbers need.
    pub(crate) fn copied(alloc: Global, numbers: &[Number]) -> Result<Self, NoMemory>
        ensures { IfOk result (λ list. list ≡ numbers.now) }
    {
        if numbers.len() <= MOST_IN_PLACE {
            return Ok(LinkList {
                held: in_place(numbers),
            });
        }
        let held = apart(alloc, numbers)?;
        Ok(LinkList { held })
    }

    pub(crate) fn numbers(&self) -> &[Number]
        ensures { result.now ≡ self.now }
    {
        match &self.held {
            Held::Few(len, place) => &place[..*len as usize],
            Held::Many(numbers) => numbers.as_slice(),
        }
    }
}
