//! Words and the commands that they mean.

use super::strings;
use std::test::Fail;
use ve_words::{Command, WordsFault, read_words};

/// Command lines, and what they mean.
const READ: &[(&str, Result<Command, WordsFault>)] = &[
    (
        "venum alone",
        Ok(Command::Alone {
            limit: 10_000,
            summary: false,
        }),
    ),
    (
        "venum alone --summary --limit 7",
        Ok(Command::Alone {
            limit: 7,
            summary: true,
        }),
    ),
    (
        "venum alone --limit=007 --",
        Ok(Command::Alone {
            limit: 7,
            summary: false,
        }),
    ),
    (
        "venum shared --limit=1000000 --workers 64",
        Ok(Command::Shared {
            workers: 64,
            limit: 1_000_000,
            summary: false,
        }),
    ),
    ("venum show", Ok(Command::Show)),
    ("venum check", Ok(Command::Check)),
    (
        "venum make --prime 3 --points 4 --node=1",
        Ok(Command::Make {
            points: 4,
            node: 1,
            prime: 3,
        }),
    ),
    ("venum alone --limit 0", Err(WordsFault::Refused)),
    ("venum make --points 4", Err(WordsFault::Refused)),
    ("venum show --help", Err(WordsFault::Refused)),
];

#[test]
fn words_mean_commands(rt: HostRuntime) -> Result<(), Fail> {
    for (line, command) in READ {
        let words = strings(rt.alloc(), line)?;
        assert!(rt; read_words(rt.alloc(), &words) == *command);
    }
    Ok(())
}
