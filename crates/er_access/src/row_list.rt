//! The numbers of the accesses of one location.

ghost use Rattle.std.specs.Prelude.{◌≡◌, ◌≤◌, [], ◌∷◌, ◌++◌, take, OnOk, OnErr, IfOk};
ghost use Rattle.er_access.specs.InPlace.{numbers_of, AreInPlace};

use er_io::NoMemory;
use std::alloc::Global;
use std::marker::Model;

/// So many numbers need no memory: most locations have few accesses.
const MOST_IN_PLACE: usize = 3;

/// Where the numbers are.
#[derive(Drop)]
pub(crate) enum Held {
    /// In place: the first so many of these.
    Few(u8, [u32; MOST_IN_PLACE]),
    Many(Box<Vec<u32>>),
}

/// Numbers, in the order in which they came.
#[derive(Drop)]
pub(crate) struct RowList {
    alloc: Global,
    held: Held,
}

impl Model for RowList {
    ghost use Rattle.std.specs.Prelude.{ℕ, List};
    ghost use Rattle.er_access.specs.InPlace.{numbers_of, AreInPlace};

    ghost Value = { List ℕ };

    ghost view = { λ rows. numbers_of rows.held };

    ghost invariant = { λ rows. AreInPlace rows.held };
}

/// One number more, behind those that fill what lies in place.
fn outgrown(alloc: Global, place: &[u32], n: u32) -> Result<Held, NoMemory>
    ensures numbers { IfOk result (λ more. numbers_of more ≡ place.now ++ n ∷ []) }
    ensures held { IfOk result AreInPlace }
{
    let Ok(mut numbers) = Vec::from_slice(alloc, place) else {
        return Err(NoMemory);
    };
    let Ok(()) = numbers.push(n) else {
        return Err(NoMemory);
    };
    let Ok(many) = Box::new(alloc, numbers) else {
        return Err(NoMemory);
    };
    Ok(Held::Many(many))
}

/// One number more, behind the first so many of these.
fn with_more(alloc: Global, len: u8, place: [u32; MOST_IN_PLACE], n: u32) -> Result<Held, NoMemory>
    requires { len ≤ MOST_IN_PLACE }
    ensures numbers { IfOk result (λ more. numbers_of more ≡ take len place ++ n ∷ []) }
    ensures held { IfOk result AreInPlace }
{
    let end = len as usize;
    if end == MOST_IN_PLACE {
        return outgrown(alloc, &place, n);
    }
    let mut longer = place;
    longer[end] = n;
    Ok(Held::Few(len + 1, longer))
}

/// A copy of these, and one number more.
fn with_one(alloc: Global, held: &Held, n: u32) -> Result<Held, NoMemory>
    requires { AreInPlace held.now }
    ensures numbers { IfOk result (λ more. numbers_of more ≡ numbers_of held.now ++ n ∷ []) }
    ensures held { IfOk result AreInPlace }
{
    match held {
        Held::Few(len, place) => with_more(alloc, *len, *place, n),
        Held::Many(numbers) => outgrown(alloc, numbers.as_slice(), n),
    }
}

/// Puts a number behind these. Those that do not lie in place are not copied.
fn put(alloc: Global, held: &mut Held, n: u32) -> Result<(), NoMemory>
    requires held { AreInPlace held.old }
    ensures pushed { OnOk result (numbers_of held.new ≡ numbers_of held.old ++ n ∷ []) }
    ensures unchanged { OnErr result (numbers_of held.new ≡ numbers_of held.old) }
    ensures held { AreInPlace held.new }
{
    if let Held::Many(numbers) = held {
        let Ok(()) = numbers.push(n) else {
            return Err(NoMemory);
        };
        return Ok(());
    }
    let more = with_one(alloc, held, n)?;
    *held = more;
    Ok(())
}

impl RowList {
    /// No number yet. It takes no memory.
    pub(crate) fn new(alloc: Global) -> RowList
        ensures { result ≡ [] }
    {
        RowList {
            alloc,
            held: Held::Few(0, [0; MOST_IN_PLACE]),
        }
    }

    pub(crate) fn as_slice(&self) -> &[u32]
        ensures { result.now ≡ self.now }
    {
        match &self.held {
            Held::Few(len, place) => &place[..*len as usize],
            Held::Many(numbers) => numbers.as_slice(),
        }
    }

    pub(crate) fn push(&mut self, n: u32) -> Result<(), NoMemory>
        ensures pushed { OnOk result (self.new ≡ self.old ++ n ∷ []) }
        ensures unchanged { OnErr result (self.new ≡ self.old) }
    {
        put(self.alloc, &mut self.held, n)
    }
}
