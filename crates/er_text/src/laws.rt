//! Laws of the definitions that the contracts cite. Each is a function that does nothing, whose
//! contract is the law.

ghost use Rattle.std.specs.Prelude.{◌≡◌, ℕ, List, [], ◌∷◌, ◌++◌, Some, None, true, ◌↔◌, ◌*◌, ◌<◌, ◌≤◌, ◌^◌, decimal, length};
ghost use Rattle.std.specs.List.{list_all};
ghost use Rattle.er_text.specs.Bytes.{has_no_space, has_no_lf};
ghost use Rattle.er_text.specs.Lines.{first_line};
ghost use Rattle.er_text.specs.Words.{words, joined};
ghost use Rattle.er_text.specs.Number.{IsNumber};
ghost use Rattle.er_text.specs.Name.{IsName, most_name, name_spelling};

pub fn line_and_rest()
    ensures { (line rest : List ℕ) → has_no_lf line ≡ true
        → first_line (line ++ 10 ∷ rest) ≡ Some (line, rest) }
{}

pub fn parts_of_first_line()
    ensures line { (bytes line rest : List ℕ) → first_line bytes ≡ Some (line, rest)
        → has_no_lf line ≡ true }
    ensures bytes { (bytes line rest : List ℕ) → first_line bytes ≡ Some (line, rest)
        → bytes ≡ line ++ 10 ∷ rest }
{}

pub fn no_first_line()
    ensures { (bytes : List ℕ) → (first_line bytes ≡ None) ↔ (has_no_lf bytes ≡ true) }
{}

pub fn joined_words()
    ensures { (line : List ℕ) → joined (words line) ≡ line }
{}

pub fn words_of_joined()
    ensures { (word : List ℕ) (later : List (List ℕ)) → list_all has_no_space (word ∷ later) ≡ true
        → words (joined (word ∷ later)) ≡ word ∷ later }
{}

pub fn joined_line()
    ensures { (parts : List (List ℕ)) → list_all has_no_lf parts ≡ true
        → has_no_lf (joined parts) ≡ true }
{}

pub fn number_word()
    ensures some { (n : ℕ) → n < 2 ^ 64 → 0 < length (decimal n) }
    ensures no_space { (n : ℕ) → n < 2 ^ 64 → has_no_space (decimal n) ≡ true }
    ensures no_lf { (n : ℕ) → n < 2 ^ 64 → has_no_lf (decimal n) ≡ true }
    ensures one { (word : List ℕ) (m n : ℕ) → IsNumber word m → IsNumber word n → m ≡ n }
{}

pub fn name_word()
    ensures some { (name : List ℕ) → IsName name → 0 < length (name_spelling name) }
    ensures few { (name : List ℕ) → IsName name → length (name_spelling name) ≤ 3 * most_name }
    ensures no_space { (name : List ℕ) → has_no_space (name_spelling name) ≡ true }
    ensures no_lf { (name : List ℕ) → has_no_lf (name_spelling name) ≡ true }
    ensures one { (a b : List ℕ) → IsName a → IsName b → name_spelling a ≡ name_spelling b → a ≡ b }
{}
