//! Names: of variables, of event types, of handler slots.

ghost use Rattle.std.specs.Prelude.{◌≡◌, ℕ, List, [], ◌∷◌, length, take, IfOk, ◌≤◌};
ghost use Rattle.std.specs.Prelude.{nat_eq};
ghost use Rattle.std.proofs.Common.{rules};
ghost use Rattle.std.specs.Cmp.Lexicographic.{pointwise};
ghost use Rattle.std.specs.Cmp.Rules.{comparing, hashing};
ghost use Rattle.er_text.specs.Name.{most_name, IsName};

use er_io::NoMemory;
use er_text::NameWord;
use smallvec::SmallVec;
use std::alloc::{AllocError, Global};
use std::hash::{Hash, Hasher};
use std::marker::Model;

/// Names of so many bytes need no memory.
pub const MOST_IN_PLACE: usize = 30;

/// Where the bytes of a name are.
#[derive(Drop)]
pub(crate) enum Held {
    /// In place: the first so many of these.
    Short(u8, [u8; MOST_IN_PLACE]),
    Long(Vec<u8>),
}

/// A name: 1 to `MOST_NAME` bytes of any value. A contract sees it as the list of its bytes.
#[derive(Drop)]
pub struct Name {
    alloc: Global,
    held: Held,
}

impl Model for Name {
    ghost use Rattle.std.specs.Prelude.{ℕ, List};
    ghost use Rattle.er_text.specs.Name.{IsName};
    ghost use Rattle.er_trace.specs.Held.{bytes_of, IsHeld};

    ghost Value = { List ℕ };

    ghost view = { λ name. bytes_of name.held };

    ghost invariant = { λ name. IsHeld name.held × IsName (bytes_of name.held) };
}

impl Name {
    /// The name of these bytes.
    pub fn new(alloc: Global, bytes: &[u8]) -> Result<Name, NoMemory>
        requires some { 1 ≤ length bytes.now }
        requires few { length bytes.now ≤ most_name }
        ensures { IfOk result (λ name. name ≡ bytes.now) }
    {
        let len = bytes.len();
        if len <= MOST_IN_PLACE {
            let mut place = [0u8; MOST_IN_PLACE];
            place[..len].copy_from_slice(bytes);
            return Ok(Name::in_place(alloc, &place, len));
        }
        let Ok(long) = Vec::from_slice(alloc, bytes) else {
            return Err(NoMemory);
        };
        Ok(Name {
            alloc,
            held: Held::Long(long),
        })
    }

    /// The name of the first so many bytes.
    pub fn in_place(alloc: Global, place: &[u8; MOST_IN_PLACE], len: usize) -> Name
        requires few { len ≤ MOST_IN_PLACE }
        requires name { IsName (take len place.now) }
        ensures { result ≡ take len place.now }
    {
        Name {
            alloc,
            held: Held::Short(len as u8, *place),
        }
    }

    /// The name that is spelled so.
    pub fn of_word(alloc: Global, word: &NameWord<'_>) -> Result<Name, NoMemory>
        ensures { IfOk result (λ name. name ≡ word.now) }
    {
        if let Some(bytes) = word.plain() {
            return Name::new(alloc, bytes);
        }
        let mut bytes: SmallVec<u8, MOST_IN_PLACE> = SmallVec::new(alloc);
        for byte in word.bytes() {
            bytes.push(byte)?;
        }
        if bytes.len() <= MOST_IN_PLACE {
            return Name::new(alloc, bytes.as_slice());
        }
        let Ok(long) = bytes.into_vec() else {
            return Err(NoMemory);
        };
        Ok(Name {
            alloc,
            held: Held::Long(long),
        })
    }

    /// Its bytes.
    pub fn bytes(&self) -> &[u8]
        ensures value { result.now ≡ self.now }
        ensures name { IsName self.now }
        ensures some { 1 ≤ length result.now }
        ensures few { length result.now ≤ most_name }
    {
        match &self.held {
            Held::Short(len, place) => &place[..*len as usize],
            Held::Long(bytes) => bytes.as_slice(),
        }
    }

    /// An equal name.
    pub fn copy(&self) -> Result<Name, NoMemory>
        ensures { IfOk result (λ name. name ≡ self.now) }
    {
        Name::new(self.alloc, self.bytes())
    }
}

impl Clone for Name {
    ghost is_clone = { λ x y. y ≡ x };

    fn clone(&self) -> Result<Name, AllocError> {
        match Name::new(self.alloc, self.bytes()) {
            Ok(name) => Ok(name),
            Err(NoMemory) => Err(AllocError),
        }
    }
}

impl PartialEq for Name {
    ghost eq = { pointwise nat_eq };

    ghost laws = { Prim.search (comparing, rules) };

    fn eq(&self, other: &Name) -> bool {
        self.bytes() == other.bytes()
    }
}

impl Eq for Name {
    ghost laws = { Prim.search (comparing, rules) };
}

impl Hash for Name {
    // all bytes in one write, which is many times as quick as one for each
    ghost hash_input = { λ name. name ∷ [] };

    ghost respects_eq = { Prim.search (hashing, rules) };

    fn hash<H: Hasher>(&self, state: &mut H) {
        state.write(self.bytes());
    }
}
