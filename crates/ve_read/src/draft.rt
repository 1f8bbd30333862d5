//! What was read of a presentation so far, and what each line does to it.

ghost use Rattle.std.specs.Prelude.{◌≡◌, ◌≢◌, ◌↔◌, IsTrue, MatchOption, MatchResult};
ghost use Rattle.ve_formats.specs.PresentationLines as lines;
ghost use Rattle.ve_formats.specs.PresentationLines.{IsAmongRelations, Line};
ghost use Rattle.ve_read.specs.Forms.{IsFormOf};

use crate::Why;
use crate::building::{Building, Stage};
use crate::form::Form;
use std::alloc::Global;
use ve_pres::Presentation;

/// What was read so far.
#[derive(Drop)]
pub(crate) enum Draft {
    Blank,
    Versioned { has_weights: bool },
    Built(Building),
}

impl Draft {
    ghost use Rattle.ve_read.specs.Drafts.{IsKept, IsStanding, Takes, draft_of};

    /// The presentation, where its last line was read.
    pub(crate) fn finish(self) -> Option<Presentation>
        ensures { MatchOption result ((draft_of self).stage ≢ lines.after_end)
            (λ P. ((draft_of self).stage ≡ lines.after_end) × ((draft_of self).presentation ≡ P.presentation)) }
    {
        match self {
            Draft::Blank => None,
            Draft::Versioned { .. } => None,
            Draft::Built(built) => built.finish(),
        }
    }

    /// Whether the last line of the presentation was read.
    pub(crate) fn is_ended(&self) -> bool
        ensures { IsTrue result ↔ ((draft_of self.now).stage ≡ lines.after_end) }
    {
        match self {
            Draft::Blank => false,
            Draft::Versioned { .. } => false,
            Draft::Built(built) => built.is_ended(),
        }
    }

    /// The draft behind a line.
    pub(crate) fn take(self, alloc: Global, form: Form) -> Result<Draft, Why>
        requires kept { IsKept self }
        requires formed { (line : Line) × IsFormOf form line }
        ensures { (line : Line) → IsFormOf form.entry line → Takes (draft_of self) line result }
    {
        match form {
            Form::Version(version) => self.version(version),
            Form::Prime(prime) => self.prime(alloc, prime),
            Form::Letter(letter) => self.among_letters()?.letter(letter),
            Form::Pair(letter, inverse) => self.among_letters()?.pair(letter, inverse),
            Form::Involution(letter) => self.among_letters()?.involution(letter),
            Form::Generators(count) => self.among_letters()?.generators(count),
            Form::Balance => self.after_generators()?.balance(),
            Form::Relation(left, right) => self.among_relations()?.relation(alloc, left, right),
            Form::Submodule(left, right) => self.among_relations()?.submodule(alloc, left, right),
            Form::End => Ok(Draft::Built(self.among_relations()?.end())),
        }
    }

    // The version of the text.
    fn version(self, version: u64) -> Result<Draft, Why>
        ensures { Takes (draft_of self) (lines.version version) result }
    {
        match self {
            Draft::Blank => {
                if version == 1 {
                    Ok(Draft::Versioned { has_weights: false })
                } else if version == 2 {
                    Ok(Draft::Versioned { has_weights: true })
                } else {
                    Err(Why::WrongLine)
                }
            }
            Draft::Versioned { .. } => Err(Why::WrongLine),
            Draft::Built(_) => Err(Why::WrongLine),
        }
    }

    // The prime.
    fn prime(self, alloc: Global, prime: u64) -> Result<Draft, Why>
        ensures { Takes (draft_of self) (lines.prime prime) result }
    {
        match self {
            Draft::Blank => Err(Why::WrongLine),
            Draft::Versioned { has_weights } => {
                let built = Building::start(alloc, has_weights, prime)?;
                Ok(Draft::Built(built))
            }
            Draft::Built(_) => Err(Why::WrongLine),
        }
    }

    // What was built, where letters may be declared.
    fn among_letters(self) -> Result<Building, Why>
        requires { IsKept self }
        ensures { MatchResult result (IsStanding (λ stage. stage ≡ lines.among_letters) (draft_of self))
            (λ why. (why ≡ Why.WrongLine) × ((draft_of self).stage ≢ lines.among_letters)) }
    {
        match self {
            Draft::Blank => Err(Why::WrongLine),
            Draft::Versioned { .. } => Err(Why::WrongLine),
            Draft::Built(built) => match built.stage() {
                Stage::Letters => Ok(built),
                Stage::Generators | Stage::Relations | Stage::End => Err(Why::WrongLine),
            },
        }
    }

    // What was built, right behind the line of the generators.
    fn after_generators(self) -> Result<Building, Why>
        requires { IsKept self }
        ensures { MatchResult result (IsStanding (λ stage. stage ≡ lines.after_generators) (draft_of self))
            (λ why. (why ≡ Why.WrongLine) × ((draft_of self).stage ≢ lines.after_generators)) }
    {
        match self {
            Draft::Blank => Err(Why::WrongLine),
            Draft::Versioned { .. } => Err(Why::WrongLine),
            Draft::Built(built) => match built.stage() {
                Stage::Generators => Ok(built),
                Stage::Letters | Stage::Relations | Stage::End => Err(Why::WrongLine),
            },
        }
    }

    // What was built, where relations may stand.
    fn among_relations(self) -> Result<Building, Why>
        requires { IsKept self }
        ensures { MatchResult result (IsStanding IsAmongRelations (draft_of self))
            (λ why. (why ≡ Why.WrongLine) × ¬ (IsAmongRelations (draft_of self).stage)) }
    {
        match self {
            Draft::Blank => Err(Why::WrongLine),
            Draft::Versioned { .. } => Err(Why::WrongLine),
            Draft::Built(built) => match built.stage() {
                Stage::Generators | Stage::Relations => Ok(built),
                Stage::Letters | Stage::End => Err(Why::WrongLine),
            },
        }
    }
}
