ghost use Rattle.std.specs.Prelude.{◌≡◌, ◌<◌, ◌++◌, All, OnErr, OnOk, length, take, vec_len};
ghost use Rattle.ve_theory.specs.Words.{letters};
ghost use Rattle.ve_formats.specs.WordText.{word_text};

use crate::{Memory, Names, Word};
use itoa::Buffer;

/// Appends the text of a word, as in `e1*x*y`. After a refusal the line is as it was.
pub fn write_word(word: &Word, names: &Names, line: &mut Vec<u8>) -> Result<(), Memory>
    requires { All (λ letter. letter < length names.now) (letters word.now) }
    ensures ok { OnOk result (line.new.items ≡ line.old.items ++ word_text names.now word.now) }
    ensures err { OnErr result (line.new.items ≡ line.old.items) }
{
    let start = line.len();
    let written = append_word(word, names, line);
    if written.is_err() {
        line.truncate(start);
    }
    written
}

// After a refusal a part of the text may stand behind the old line.
fn append_word(word: &Word, names: &Names, line: &mut Vec<u8>) -> Result<(), Memory>
    requires { All (λ letter. letter < length names.now) (letters word.now) }
    ensures ok { OnOk result (line.new.items ≡ line.old.items ++ word_text names.now word.now) }
    ensures err { OnErr result (take (vec_len line.old) line.new.items ≡ line.old.items) }
{
    let mut digits = Buffer::new();
    line.push(b'e')?;
    line.extend_from_slice(digits.format(u16::from(word.root_of()) + 1).as_bytes())?;
    for &letter in word.letters() {
        line.push(b'*')?;
        line.extend_from_slice(names.name(letter).as_bytes())?;
    }
    Ok(())
}
