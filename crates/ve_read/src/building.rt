//! A presentation that is read, from the line of the prime on.

ghost use Rattle.std.specs.Prelude.{◌≡◌, ◌≢◌, ◌↔◌, ◌+◌, ◌<◌, ◌≤◌, ◌⊎◌, IsTrue, MatchOption, MatchResult, None, Some, slice_get};
ghost use Rattle.ve_theory.specs.Presentations.{most_weight};
ghost use Rattle.ve_theory.specs.Validity.{IsValid};
ghost use Rattle.ve_formats.specs.Expressions.{Expression};
ghost use Rattle.ve_formats.specs.ModuleExpressions.{ModuleExpression};
ghost use Rattle.ve_formats.specs.PresentationLines as lines;
ghost use Rattle.ve_formats.specs.PresentationLines.{Declares, IsAmongRelations, Line, MayWeigh};
ghost use Rattle.ve_pres.specs.Drafts.{IsOpen, with_weight};
ghost use Rattle.ve_read.specs.Forms.{AreModuleTokensOf, AreTokensOf, IsNamed, declared_of};
ghost use Rattle.ve_read.specs.Drafts.{Starts, WeighsAs};

use crate::Why;
use crate::draft::Draft;
use crate::form::Declared;
use std::alloc::Global;
use ve_field::Field;
use ve_formats::values_are_elements;
use ve_lex::Placed;
use ve_pres::{Limit, Presentation};
use ve_value::{difference_of, module_difference_of, text_of};

/// The most relations and submodule relations together.
const MOST_RELATIONS: u32 = 4096;

/// The greatest weight of a letter.
const MOST_WEIGHT: u64 = 16;

/// Which lines stand behind the line of the prime.
#[derive(Clone, Copy)]
pub(crate) enum Stage {
    Letters,
    Generators,
    Relations,
    End,
}

/// A presentation that is read.
#[derive(Drop)]
pub(crate) struct Building {
    stage: Stage,
    presentation: Presentation,
    // Relations and submodule relations, zero ones among them.
    counted: u32,
}

impl Building {
    ghost use Rattle.ve_read.specs.Drafts.{IsBuilding, IsNotTaken, IsTaken, Judges, Takes, built_of, stage_of, versioned};

    /// A presentation over the field of a prime, with nothing in it.
    pub(crate) fn start(alloc: Global, has_weights: bool, prime: u64) -> Result<Building, Why>
        ensures { Starts has_weights prime result }
    {
        let Some(field) = Field::new(prime) else {
            return Err(Why::BadPrime);
        };
        let presentation = if has_weights {
            Presentation::weighted(alloc, field)
        } else {
            Presentation::new(alloc, field)
        };
        Ok(Building {
            stage: Stage::Letters,
            presentation,
            counted: 0,
        })
    }

    pub(crate) fn stage(&self) -> Stage
        ensures { result ≡ self.now.stage }
    {
        self.stage
    }

    /// Whether the last line was read.
    pub(crate) fn is_ended(&self) -> bool
        ensures { IsTrue result ↔ (stage_of self.now.stage ≡ lines.after_end) }
    {
        match self.stage {
            Stage::Letters => false,
            Stage::Generators => false,
            Stage::Relations => false,
            Stage::End => true,
        }
    }

    /// The presentation, where its last line was read.
    pub(crate) fn finish(self) -> Option<Presentation>
        ensures { MatchOption result (stage_of self.stage ≢ lines.after_end)
            (λ P. (stage_of self.stage ≡ lines.after_end) × (self.presentation ≡ P)) }
    {
        if self.is_ended() {
            Some(self.presentation)
        } else {
            None
        }
    }

    // The same at another stage.
    fn at(self, stage: Stage) -> Building
        ensures { result ≡ record { stage = stage; presentation = self.presentation; counted = self.counted } }
    {
        Building {
            stage,
            presentation: self.presentation,
            counted: self.counted,
        }
    }

    /// The last line.
    pub(crate) fn end(self) -> Building
        ensures { result ≡ record { stage = Stage.End; presentation = self.presentation; counted = self.counted } }
    {
        self.at(Stage::End)
    }

    // The draft behind a line that was taken, or why it was not.
    fn after(self, done: Result<(), Why>) -> Result<Draft, Why>
        ensures { (draft : lines.Draft) (line : Line) → MatchResult done (λ _. IsTaken draft line (Draft.Built self)) (IsNotTaken draft line) → Takes draft line result }
    {
        done?;
        Ok(Draft::Built(self))
    }

    // Whether a weight is written only where it may be.
    fn check_weight(&self, letter: &Declared) -> Result<(), Why>
        ensures place { MatchResult result (λ _. MayWeigh (built_of self.now) (declared_of letter.now))
            (λ why. (why ≡ Why.WrongLine) × ¬ (MayWeigh (built_of self.now) (declared_of letter.now))) }
        ensures valid { IsValid self.now.presentation.presentation }
    {
        self.presentation.is_valid();
        if letter.weight.is_some() && self.presentation.version() != 2 {
            return Err(Why::WrongLine);
        }
        Ok(())
    }

    // The weight of a letter that may be declared now.
    fn judge(&self, letter: &Declared) -> Result<u8, Why>
        requires { IsNamed letter.now }
        ensures { Judges self.now.presentation.presentation (declared_of letter.now) result }
    {
        self.presentation.is_valid();
        let mut names = self.presentation.names().copy()?;
        names.add(text_of(letter.name))?;
        weight_of(letter)
    }

    /// A letter without inverse.
    pub(crate) fn letter(mut self, letter: Declared) -> Result<Draft, Why>
        requires stage { self.stage ≡ Stage.Letters }
        requires kept { IsBuilding self }
        requires named { IsNamed letter }
        ensures { Takes (built_of self) (lines.letter (declared_of letter.entry)) result }
    {
        let done = self.declare_letter(&letter);
        self.after(done)
    }

    // Declares a letter without inverse.
    fn declare_letter(&mut self, letter: &Declared) -> Result<(), Why>
        requires stage { self.old.stage ≡ Stage.Letters }
        requires kept { IsBuilding self.old }
        requires named { IsNamed letter.now }
        ensures { MatchResult result (λ _. IsTaken (built_of self.old) (lines.letter (declared_of letter.now)) (Draft.Built self.new))
            (IsNotTaken (built_of self.old) (lines.letter (declared_of letter.now))) }
    {
        self.check_weight(letter)?;
        let number = self.presentation.add_letter(text_of(letter.name))?;
        let weight = weight_of(letter)?;
        weigh(&mut self.presentation, number, weight);
        Ok(())
    }

    /// A letter that is its own inverse.
    pub(crate) fn involution(mut self, letter: Declared) -> Result<Draft, Why>
        requires stage { self.stage ≡ Stage.Letters }
        requires kept { IsBuilding self }
        requires named { IsNamed letter }
        ensures { Takes (built_of self) (lines.involution (declared_of letter.entry)) result }
    {
        let done = self.declare_involution(&letter);
        self.after(done)
    }

    // Declares a letter that is its own inverse.
    fn declare_involution(&mut self, letter: &Declared) -> Result<(), Why>
        requires stage { self.old.stage ≡ Stage.Letters }
        requires kept { IsBuilding self.old }
        requires named { IsNamed letter.now }
        ensures { MatchResult result (λ _. IsTaken (built_of self.old) (lines.involution (declared_of letter.now)) (Draft.Built self.new))
            (IsNotTaken (built_of self.old) (lines.involution (declared_of letter.now))) }
    {
        self.check_weight(letter)?;
        let number = self.presentation.add_involution(text_of(letter.name))?;
        let weight = weight_of(letter)?;
        weigh(&mut self.presentation, number, weight);
        Ok(())
    }

    /// A letter and its inverse. The first is judged whole before the second.
    pub(crate) fn pair(mut self, letter: Declared, inverse: Declared) -> Result<Draft, Why>
        requires stage { self.stage ≡ Stage.Letters }
        requires kept { IsBuilding self }
        requires named { IsNamed letter }
        requires inverse_named { IsNamed inverse }
        ensures { Takes (built_of self) (lines.pair (declared_of letter.entry) (declared_of inverse.entry)) result }
    {
        let done = self.declare_pair(&letter, &inverse);
        self.after(done)
    }

    // Declares a letter and its inverse.
    fn declare_pair(&mut self, letter: &Declared, inverse: &Declared) -> Result<(), Why>
        requires stage { self.old.stage ≡ Stage.Letters }
        requires kept { IsBuilding self.old }
        requires named { IsNamed letter.now }
        requires inverse_named { IsNamed inverse.now }
        ensures { MatchResult result
            (λ _. IsTaken (built_of self.old) (lines.pair (declared_of letter.now) (declared_of inverse.now)) (Draft.Built self.new))
            (IsNotTaken (built_of self.old) (lines.pair (declared_of letter.now) (declared_of inverse.now))) }
    {
        let weight = self.judge_first(letter, inverse)?;
        let name = text_of(letter.name);
        let number = self.presentation.add_pair(name, text_of(inverse.name))?;
        let inverse_weight = weight_of(inverse)?;
        weigh(&mut self.presentation, number, weight);
        weigh(&mut self.presentation, number + 1, inverse_weight);
        Ok(())
    }

    // The weight of the first letter of a pair, where it may be declared and both may have their weights.
    fn judge_first(&self, letter: &Declared, inverse: &Declared) -> Result<u8, Why>
        requires stage { self.now.stage ≡ Stage.Letters }
        requires named { IsNamed letter.now }
        ensures judged { MatchResult result
            (λ weight. (weight ≡ lines.weight_of (declared_of letter.now)) × Declares self.now.presentation.presentation (declared_of letter.now) None
            × MayWeigh (built_of self.now) (declared_of letter.now) × MayWeigh (built_of self.now) (declared_of inverse.now))
            (IsNotTaken (built_of self.now) (lines.pair (declared_of letter.now) (declared_of inverse.now))) }
        ensures valid { IsValid self.now.presentation.presentation }
    {
        self.check_weight(letter)?;
        self.check_weight(inverse)?;
        self.judge(letter)
    }

    /// The number of generators.
    pub(crate) fn generators(mut self, count: u64) -> Result<Draft, Why>
        requires stage { self.stage ≡ Stage.Letters }
        requires kept { IsBuilding self }
        ensures { Takes (built_of self) (lines.generators count) result }
    {
        if count == 0 {
            return Err(Why::WrongLine);
        }
        self.presentation.set_roots(count)?;
        Ok(Draft::Built(self.at(Stage::Generators)))
    }

    /// Relations are halved from here on.
    pub(crate) fn balance(mut self) -> Result<Draft, Why>
        requires stage { self.stage ≡ Stage.Generators }
        requires kept { IsBuilding self }
        ensures { Takes (built_of self) lines.balance result }
    {
        if self.presentation.version() != 2 {
            return Err(Why::WrongLine);
        }
        self.presentation.balance();
        Ok(Draft::Built(self.at(Stage::Relations)))
    }

    /// A relation.
    pub(crate) fn relation(
        mut self,
        alloc: Global,
        left: &[Placed],
        right: &[Placed],
    ) -> Result<Draft, Why>
        requires stage { IsAmongRelations (stage_of self.stage) }
        requires kept { IsBuilding self }
        requires left { (d : Expression) × AreTokensOf left.now d }
        requires right { (e : Expression) × AreTokensOf right.now e }
        ensures { (d e : Expression) → AreTokensOf left.now d → AreTokensOf right.now e → Takes (built_of self) (lines.relation d e) result }
    {
        let done = self.keep_relation(alloc, left, right);
        self.after(done)
    }

    // Keeps a relation.
    fn keep_relation(&mut self, alloc: Global, left: &[Placed], right: &[Placed]) -> Result<(), Why>
        requires stage { IsAmongRelations (stage_of self.old.stage) }
        requires kept { IsBuilding self.old }
        requires left { (d : Expression) × AreTokensOf left.now d }
        requires right { (e : Expression) × AreTokensOf right.now e }
        ensures { (d e : Expression) → AreTokensOf left.now d → AreTokensOf right.now e
            → MatchResult result (λ _. IsTaken (built_of self.old) (lines.relation d e) (Draft.Built self.new)) (IsNotTaken (built_of self.old) (lines.relation d e)) }
    {
        if self.counted >= MOST_RELATIONS {
            return Err(Why::Limit(Limit::Relations));
        }
        self.presentation.is_valid();
        values_are_elements();
        let relation = difference_of(alloc, &self.presentation, left, right)?;
        self.presentation.add_relation(relation)?;
        self.count();
        Ok(())
    }

    /// A submodule relation.
    pub(crate) fn submodule(
        mut self,
        alloc: Global,
        left: &[Placed],
        right: &[Placed],
    ) -> Result<Draft, Why>
        requires stage { IsAmongRelations (stage_of self.stage) }
        requires kept { IsBuilding self }
        requires left { (d : ModuleExpression) × AreModuleTokensOf left.now d }
        requires right { (e : ModuleExpression) × AreModuleTokensOf right.now e }
        ensures { (d e : ModuleExpression) → AreModuleTokensOf left.now d → AreModuleTokensOf right.now e
            → Takes (built_of self) (lines.submodule d e) result }
    {
        let done = self.keep_submodule(alloc, left, right);
        self.after(done)
    }

    // Keeps a submodule relation.
    fn keep_submodule(
        &mut self,
        alloc: Global,
        left: &[Placed],
        right: &[Placed],
    ) -> Result<(), Why>
        requires stage { IsAmongRelations (stage_of self.old.stage) }
        requires kept { IsBuilding self.old }
        requires left { (d : ModuleExpression) × AreModuleTokensOf left.now d }
        requires right { (e : ModuleExpression) × AreModuleTokensOf right.now e }
        ensures { (d e : ModuleExpression) → AreModuleTokensOf left.now d → AreModuleTokensOf right.now e
            → MatchResult result (λ _. IsTaken (built_of self.old) (lines.submodule d e) (Draft.Built self.new)) (IsNotTaken (built_of self.old) (lines.submodule d e)) }
    {
        if self.counted >= MOST_RELATIONS {
            return Err(Why::Limit(Limit::Relations));
        }
        self.presentation.is_valid();
        values_are_elements();
        let relation = module_difference_of(alloc, &self.presentation, left, right)?;
        self.presentation.add_sub(relation)?;
        self.count();
        Ok(())
    }

    // Counts one relation more.
    fn count(&mut self)
        requires { self.old.counted < 4096 }
        ensures { self.new ≡ record { stage = Stage.Relations; presentation = self.old.presentation; counted = self.old.counted + 1 } }
    {
        self.stage = Stage::Relations;
        self.counted += 1;
    }
}

// Gives a letter of weight 1 a weight. Weights other than 1 belong to version 2.
fn weigh(presentation: &mut Presentation, number: u8, weight: u8)
    requires open { IsOpen presentation.old }
    requires letter { slice_get presentation.old.presentation.weights number ≡ Some 1 }
    requires version { (presentation.old.presentation.version ≡ 2) ⊎ (weight ≡ 1) }
    requires positive { 0 < weight }
    requires small { weight ≤ most_weight }
    ensures weight { presentation.new ≡ with_weight presentation.old number weight }
    ensures open { IsOpen presentation.new }
{
    // The presentation is valid, so each letter has one weight.
    presentation.is_valid();
    if weight != 1 {
        presentation.weigh(number, weight);
    }
}

// The weight of a letter, 1 where none is written.
fn weight_of(letter: &Declared) -> Result<u8, Why>
    ensures { WeighsAs (declared_of letter.now) result }
{
    match letter.weight {
        None => Ok(1),
        Some(weight) => {
            if weight == 0 || weight > MOST_WEIGHT {
                return Err(Why::BadWeight);
            }
            Ok(weight as u8)
        }
    }
}
