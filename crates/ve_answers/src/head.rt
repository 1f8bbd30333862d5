//! The lines before those of the basis.

ghost use Rattle.std.specs.Prelude.{◌≡◌, ◌≢◌, ◌≤◌, ℕ, List, [], ◌∷◌, ◌++◌, IfOk, IfErr, OnOk, IsTrue, IsFalse, MatchOption, codes, map};
ghost use Rattle.ve_formats.specs.Lines.{each_after_space};
ghost use Rattle.ve_formats.specs.AnswerReading as places;
ghost use Rattle.ve_formats.specs.AnswerReading.{AreNames, blank_draft, body_places, head_places};
ghost use Rattle.ve_answers.specs.Heads.{IsHead, draft_of};
ghost use Rattle.ve_answers.specs.Steps.{IsCounted, Leads, ReadsLine, Refuses, RefusesLine};

use crate::AnswerRefusal;
use crate::lines::Lines;
use crate::words::{name_of, pieces};
use std::alloc::Global;
use ve_field::Field;
use ve_word::{Memory, NameFault, Names};

/// What the first lines say.
#[derive(Drop)]
pub(crate) struct Head {
    pub(crate) field: Field,
    pub(crate) names: Names,
    pub(crate) roots: u16,
    pub(crate) closed: u32,
    pub(crate) dimension: u32,
}

/// Reads the first lines.
pub(crate) fn read_head(alloc: Global, lines: &mut Lines) -> Result<Head, AnswerRefusal>
    requires { IsCounted lines.old }
    ensures ok { IfOk result (λ head.
        Leads blank_draft head_places lines.old (draft_of head) (body_places (draft_of head)) lines.new) }
    ensures head { IfOk result IsHead }
    ensures counted { OnOk result (IsCounted lines.new) }
    ensures err { IfErr result (Refuses blank_draft head_places lines.old) }
{
    lines.take(b"venum-answer 1")?;
    let field = read_prime(lines)?;
    let names = read_names(alloc, lines)?;
    let roots = read_generators(lines)?;
    let closed = lines.take_number(b"closed", u64::from(u32::MAX))?;
    let dimension = lines.take_number(b"dimension", u64::from(u32::MAX))?;
    Ok(Head {
        field,
        names,
        roots: roots as u16,
        closed: closed as u32,
        dimension: dimension as u32,
    })
}

/// Reads the line of the prime.
fn read_prime(lines: &mut Lines) -> Result<Field, AnswerRefusal>
    requires { IsCounted lines.old }
    ensures ok { IfOk result (λ field.
        ReadsLine places.prime lines.old (λ draft. record draft { prime = field }) lines.new) }
    ensures counted { OnOk result (IsCounted lines.new) }
    ensures err { IfErr result (RefusesLine places.prime lines.old) }
{
    let prime = lines.take_number(b"prime", 255)?;
    match Field::new(prime) {
        Some(field) => Ok(field),
        None => Err(lines.refusal()),
    }
}

/// Reads the line of the number of generators, of which there is one at least.
fn read_generators(lines: &mut Lines) -> Result<u64, AnswerRefusal>
    requires { IsCounted lines.old }
    ensures ok { IfOk result (λ roots.
        ReadsLine places.generators lines.old (λ draft. record draft { generators = roots }) lines.new) }
    ensures most { IfOk result (λ roots. roots ≤ 255) }
    ensures counted { OnOk result (IsCounted lines.new) }
    ensures err { IfErr result (RefusesLine places.generators lines.old) }
{
    let roots = lines.take_number(b"module", 255)?;
    if roots == 0 {
        return Err(lines.refusal());
    }
    Ok(roots)
}

/// Reads the line of names.
fn read_names(alloc: Global, lines: &mut Lines) -> Result<Names, AnswerRefusal>
    requires { IsCounted lines.old }
    ensures ok { IfOk result (λ names.
        ReadsLine places.names lines.old (λ draft. record draft { names = names }) lines.new) }
    ensures names { IfOk result (λ names. AreNames names) }
    ensures counted { OnOk result (IsCounted lines.new) }
    ensures err { IfErr result (RefusesLine places.names lines.old) }
{
    let line = lines.next()?;
    match names_of(alloc, line)? {
        Some(names) => Ok(names),
        None => Err(lines.refusal()),
    }
}

/// The names of a line of names; `None` for any other line.
fn names_of(alloc: Global, line: &[u8]) -> Result<Option<Names>, Memory>
    ensures { IfOk result (λ found. MatchOption found
        ((names : List (List ℕ)) → AreNames names → line.now ≢ codes "letters" ++ each_after_space names)
        (λ names. AreNames names × (line.now ≡ codes "letters" ++ each_after_space names))) }
{
    // A law by which no text has two lists of pieces. It does nothing.
    ve_formats::texts_split_once();
    let Some(rest) = line.strip_prefix(b"letters") else {
        return Ok(None);
    };
    let Some(pieces) = pieces(alloc, rest)? else {
        return Ok(None);
    };
    names_in(alloc, &pieces)
}

/// The names that pieces are; `None` where no letters have them.
fn names_in(alloc: Global, pieces: &[&[u8]]) -> Result<Option<Names>, Memory>
    ensures { IfOk result (λ found. MatchOption found (¬ AreNames (map (λ piece. piece.now) pieces.now))
        (λ names. (names ≡ map (λ piece. piece.now) pieces.now) × AreNames names)) }
{
    let mut names = Names::new(alloc);
    for piece in pieces {
        if !add_name(&mut names, piece)? {
            return Ok(None);
        }
    }
    Ok(Some(names))
}

/// Adds a name; `false` where no letter can have it.
fn add_name(names: &mut Names, piece: &[u8]) -> Result<bool, Memory>
    ensures added { IfOk result (λ is_added. IsTrue is_added → names.new ≡ names.old ++ piece.now ∷ []) }
    ensures names { IfOk result (λ is_added. IsTrue is_added → AreNames names.old → AreNames names.new) }
    ensures refused { IfOk result (λ is_added. IsFalse is_added
        → (behind : List (List ℕ)) → AreNames (names.old ++ piece.now ∷ behind) → ⊥) }
{
    let Some(name) = name_of(piece) else {
        return Ok(false);
    };
    let Err(fault) = names.add(name) else {
        return Ok(true);
    };
    match fault {
        NameFault::Memory => Err(Memory),
        _ => Ok(false),
    }
}
