//! The commands and their options, as `clap` sees them.

ghost use Rattle.std.specs.Prelude.{◌≡◌, false, IfOk};
ghost use Rattle.clap.specs.Words.{app_of, rule_of};
ghost use Rattle.ve_words.specs.Meaning.{alone_app, limit_rule, make_app, number_rule, shared_app, summary_rule, workers_rule};

use clap::{Arg, ArgAction, Command, value_parser};
use std::alloc::{AllocError, Global};

pub(crate) fn alone<'a>(alloc: Global) -> Result<Command<'a>, AllocError>
    ensures { IfOk result (λ command. app_of command ≡ alone_app) }
{
    Command::new(alloc, "alone")
        .arg(limit(alloc))?
        .arg(summary(alloc))
}

pub(crate) fn shared<'a>(alloc: Global) -> Result<Command<'a>, AllocError>
    ensures { IfOk result (λ command. app_of command ≡ shared_app) }
{
    Command::new(alloc, "shared")
        .arg(workers(alloc))?
        .arg(limit(alloc))?
        .arg(summary(alloc))
}

pub(crate) fn make<'a>(alloc: Global) -> Result<Command<'a>, AllocError>
    ensures { IfOk result (λ command. app_of command ≡ make_app) }
{
    Command::new(alloc, "make")
        .arg(number(alloc, "points"))?
        .arg(number(alloc, "node"))?
        .arg(number(alloc, "prime"))
}

/// The greatest number of vectors of a level.
fn limit<'a>(alloc: Global) -> Arg<'a>
    ensures rule { rule_of result ≡ limit_rule }
    ensures local { result.global ≡ false }
{
    Arg::new(alloc, "limit")
        .long("limit")
        .value_parser(value_parser!(u64).range(1..=1_000_000))
        .default_value("10000")
}

/// How many threads work.
fn workers<'a>(alloc: Global) -> Arg<'a>
    ensures rule { rule_of result ≡ workers_rule }
    ensures local { result.global ≡ false }
{
    Arg::new(alloc, "workers")
        .long("workers")
        .value_parser(value_parser!(u64).range(1..=64))
        .default_value("4")
}

/// Whether a summary is written in place of an answer.
fn summary<'a>(alloc: Global) -> Arg<'a>
    ensures rule { rule_of result ≡ summary_rule }
    ensures local { result.global ≡ false }
{
    Arg::new(alloc, "summary")
        .long("summary")
        .action(ArgAction::SetTrue)
}

/// A number of a presentation that is made, which has to be given.
fn number<'a>(alloc: Global, name: &'a str) -> Arg<'a>
    ensures rule { rule_of result ≡ number_rule name.entry.now }
    ensures local { result.global ≡ false }
{
    Arg::new(alloc, name)
        .long(name)
        .value_parser(value_parser!(u64).range(0..=1000))
        .required(true)
}
