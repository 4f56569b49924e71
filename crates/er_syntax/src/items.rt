//! Reading the items of a line, word by word.

ghost use Rattle.std.specs.Prelude.{◌≡◌, ℕ, ◌<◌, ◌^◌, List, [], ◌∷◌, decimal, ◌⊎◌, Ok, Err, Some, IfSome, IfOk, IsSomeAnd, IsTrue, ◌↔◌};
ghost use Rattle.er_text.specs.Name.{IsName, name_spelling};

use er_text::{NameWord, Words, read_name, read_number};
use er_trace::fault::LineFault;
use er_trace::name::Name;
use std::alloc::Global;

/// Whether no word is left.
pub fn is_ended(words: &mut Words) -> bool
    ensures { IsTrue result ↔ (words.old ≡ []) }
{
    words.next().is_none()
}

/// The next word, where it is a number.
pub fn number(words: &mut Words) -> Option<u32>
    ensures read { IfSome result (λ n. (n < 2 ^ 32) × (words.old ≡ decimal n ∷ words.new)) }
    ensures exact { (n : ℕ) (later : List (List ℕ)) → n < 2 ^ 32 → words.old ≡ decimal n ∷ later
        → (result ≡ Some n) × (words.new ≡ later) }
{
    read_number(words.next()?).ok()
}

/// The number that is all that is left.
pub fn one_number(words: &mut Words) -> Option<u32>
    ensures read { IfSome result (λ a. (a < 2 ^ 32) × (words.old ≡ decimal a ∷ [])) }
    ensures exact { (a : ℕ) → a < 2 ^ 32 → words.old ≡ decimal a ∷ [] → result ≡ Some a }
{
    let a = number(words)?;
    if is_ended(words) { Some(a) } else { None }
}

/// The two numbers that are all that is left.
pub fn two_numbers(words: &mut Words) -> Option<(u32, u32)>
    ensures read { IfSome result (λ pair. (pair.0 < 2 ^ 32) × (pair.1 < 2 ^ 32)
        × (words.old ≡ decimal pair.0 ∷ decimal pair.1 ∷ [])) }
    ensures exact { (a b : ℕ) → a < 2 ^ 32 → b < 2 ^ 32 → words.old ≡ decimal a ∷ decimal b ∷ []
        → result ≡ Some (a, b) }
{
    let a = number(words)?;
    let b = one_number(words)?;
    Some((a, b))
}

/// The three numbers that are all that is left.
pub fn three_numbers(words: &mut Words) -> Option<(u32, u32, u32)>
    ensures read { IfSome result (λ all. (all.0 < 2 ^ 32) × (all.1 < 2 ^ 32) × (all.2 < 2 ^ 32)
        × (words.old ≡ decimal all.0 ∷ decimal all.1 ∷ decimal all.2 ∷ [])) }
    ensures exact { (a b c : ℕ) → a < 2 ^ 32 → b < 2 ^ 32 → c < 2 ^ 32
        → words.old ≡ decimal a ∷ decimal b ∷ decimal c ∷ [] → result ≡ Some (a, b, c) }
{
    let a = number(words)?;
    let (b, c) = two_numbers(words)?;
    Some((a, b, c))
}

/// The name that is all that is left.
fn last_word<'a>(words: &mut Words<'a>) -> Option<NameWord<'a>>
    ensures read { IfSome result (λ name. IsName name × (words.old ≡ name_spelling name ∷ [])) }
    ensures exact { (name : List ℕ) → IsName name → words.old ≡ name_spelling name ∷ []
        → IsSomeAnd result (λ word. word ≡ name) }
{
    let word = words.next()?;
    if !is_ended(words) {
        return None;
    }
    read_name(word).ok()
}

/// The name that is all that is left.
fn last_name(alloc: Global, words: &mut Words) -> Result<Name, LineFault>
    ensures read { IfOk result (λ name. IsName name × (words.old ≡ name_spelling name ∷ [])) }
    ensures exact { (name : List ℕ) → IsName name → words.old ≡ name_spelling name ∷ []
        → (result ≡ Ok name) ⊎ (result ≡ Err LineFault.NoMemory) }
{
    let Some(word) = last_word(words) else {
        return Err(LineFault::BadRecord);
    };
    let name = Name::of_word(alloc, &word)?;
    Ok(name)
}

/// The number and the name that are all that is left.
pub fn number_and_name(alloc: Global, words: &mut Words) -> Result<(u32, Name), LineFault>
    ensures read { IfOk result (λ pair. (pair.0 < 2 ^ 32) × IsName pair.1
        × (words.old ≡ decimal pair.0 ∷ name_spelling pair.1 ∷ [])) }
    ensures exact { (a : ℕ) (name : List ℕ) → a < 2 ^ 32 → IsName name
        → words.old ≡ decimal a ∷ name_spelling name ∷ []
        → (result ≡ Ok (a, name)) ⊎ (result ≡ Err LineFault.NoMemory) }
{
    let Some(a) = number(words) else {
        return Err(LineFault::BadRecord);
    };
    let name = last_name(alloc, words)?;
    Ok((a, name))
}

/// The two numbers and the name that are all that is left.
pub fn two_numbers_and_name(alloc: Global, words: &mut Words) -> Result<(u32, u32, Name), LineFault>
    ensures read { IfOk result (λ all. (all.0 < 2 ^ 32) × (all.1 < 2 ^ 32) × IsName all.2
        × (words.old ≡ decimal all.0 ∷ decimal all.1 ∷ name_spelling all.2 ∷ [])) }
    ensures exact { (a b : ℕ) (name : List ℕ) → a < 2 ^ 32 → b < 2 ^ 32 → IsName name
        → words.old ≡ decimal a ∷ decimal b ∷ name_spelling name ∷ []
        → (result ≡ Ok (a, b, name)) ⊎ (result ≡ Err LineFault.NoMemory) }
{
    let Some(a) = number(words) else {
        return Err(LineFault::BadRecord);
    };
    let (b, name) = number_and_name(alloc, words)?;
    Ok((a, b, name))
}
