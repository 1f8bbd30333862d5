//! Laws of texts in pieces. Each is the contract of a function that does nothing.

ghost use Rattle.std.specs.Prelude.{◌≡◌, ℕ, ◌<◌, ◌^◌, List, ◌∷◌, ◌++◌, All, IsTrue, decimal};
ghost use Rattle.ve_theory.specs.Validity.{is_name};
ghost use Rattle.ve_theory.specs.Words.{Word};
ghost use Rattle.ve_formats.specs.AnswerReading.{AreNames};
ghost use Rattle.ve_formats.specs.Lines.{each_after_space};
ghost use Rattle.ve_formats.specs.Pieces.{IsWritten, Lacks};
ghost use Rattle.ve_formats.specs.WordText.{word_text};

/// A text has one list of pieces behind spaces and one split at its last star. Names and numbers have neither byte. Words
/// with the same text are the same.
pub fn texts_split_once()
    ensures spaces { (xs ys : List (List ℕ)) → All (Lacks 32) xs → All (Lacks 32) ys → each_after_space xs ≡ each_after_space ys → xs ≡ ys }
    ensures stars { (xs ys m n : List ℕ) → Lacks 42 m → Lacks 42 n → xs ++ 42 ∷ m ≡ ys ++ 42 ∷ n → (xs ≡ ys) × (m ≡ n) }
    ensures names { (name : List ℕ) → IsTrue (is_name name) → Lacks 32 name × Lacks 42 name }
    ensures numbers { (n : ℕ) → n < 2 ^ 64 → Lacks 32 (decimal n) × Lacks 42 (decimal n) }
    ensures words { (names : List (List ℕ)) (v w : Word) → AreNames names → IsWritten names v → IsWritten names w → word_text names v ≡ word_text names w → v ≡ w }
{}
