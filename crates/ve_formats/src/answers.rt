//! Laws of the texts of answers. Each is the contract of a function that does nothing.

ghost use Rattle.std.specs.Prelude.{◌≡◌, ◌⊎◌, ℕ, List};
ghost use Rattle.ve_theory.specs.Answers.{Answer};
ghost use Rattle.ve_formats.specs.AnswerReading.{Draft, FillAll, IsNoAnswerAt, ShowsAnswer, answer_in, blank_draft, head_places};
ghost use Rattle.ve_formats.specs.Lines.{lines_of};

use ve_theory::elements::reduced_lists_are_unique;

/// Each text shows exactly one answer, or is refused at exactly one line, and never both.
pub fn answers_are_read_once()
    ensures read { (text : List ℕ) → ((A : Answer) × ShowsAnswer text A) ⊎ ((line : ℕ) × IsNoAnswerAt text line) }
    ensures same_answer { (text : List ℕ) (A B : Answer) → ShowsAnswer text A → ShowsAnswer text B → A ≡ B }
    ensures same_line { (text : List ℕ) (line other : ℕ) → IsNoAnswerAt text line → IsNoAnswerAt text other → line ≡ other }
    // Lines that fill all places are those of the answer that they fill.
    ensures filled { (text : List ℕ) (last : Draft) → FillAll blank_draft head_places (lines_of text) last → ShowsAnswer text (answer_in last) }
    ensures never_both { (text : List ℕ) (A : Answer) (line : ℕ) → ShowsAnswer text A → IsNoAnswerAt text line → ⊥ }
{
    reduced_lists_are_unique();
}
