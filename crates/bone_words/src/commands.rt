//! The commands, as `clap` reads words by them.
ghost use Rattle.std.specs.Prelude.{◌≡◌, false, IfOk};
ghost use Rattle.clap.specs.Words.{app_of, rule_of};
ghost use Rattle.bone_words.specs.Commands.{name_option, number_option, place, extract_command, check_command, sample_command};
ghost use Rattle.bone_words.specs.Commands.{workers_option, budget_option, seed_option};

use clap::builder::ValueParser;
use clap::{Arg, Command};
use std::alloc::{AllocError, Global};

/// The most workers of a run.
pub const MAX_WORKERS: u64 = 16;

/// The most clauses that a worker may be allowed to learn: 2^40.
pub const MAX_BUDGET: u64 = 1_099_511_627_776;

/// The fewest and the most variables of a formula that is made from numbers: 2^20 at most.
pub const MIN_VARS: u64 = 3;

pub const MAX_VARS: u64 = 1_048_576;

/// The most clauses of a formula that is made from numbers: 2^21.
pub const MAX_CLAUSES: u64 = 2_097_152;

/// The command that reads a formula and writes its backbone.
pub fn extract_command<'a>(alloc: Global) -> Result<Command<'a>, AllocError>
    ensures { IfOk result (λ command. app_of command ≡ extract_command) }
{
    Command::new(alloc, "extract")
        .arg(workers_arg(alloc))?
        .arg(budget_arg(alloc))?
        .arg(seed_arg(alloc))?
        .arg(name_arg(alloc, "proof"))?
        .arg(name_arg(alloc, "witness"))?
        .arg(place_arg(alloc, "text", false))
}

/// The command that judges an answer with its proof and its witness.
pub fn check_command<'a>(alloc: Global) -> Result<Command<'a>, AllocError>
    ensures { IfOk result (λ command. app_of command ≡ check_command) }
{
    Command::new(alloc, "check")
        .arg(place_arg(alloc, "text", true))?
        .arg(place_arg(alloc, "answer", true))?
        .arg(place_arg(alloc, "proof", true))?
        .arg(place_arg(alloc, "witness", false))
}

/// The command that makes a formula from numbers and searches it.
pub fn sample_command<'a>(alloc: Global) -> Result<Command<'a>, AllocError>
    ensures { IfOk result (λ command. app_of command ≡ sample_command) }
{
    Command::new(alloc, "sample")
        .arg(number_arg(alloc, "vars", MIN_VARS, MAX_VARS, "2000"))?
        .arg(number_arg(alloc, "clauses", 0, MAX_CLAUSES, "6000"))?
        .arg(workers_arg(alloc))?
        .arg(budget_arg(alloc))?
        .arg(seed_arg(alloc))
}

fn workers_arg<'a>(alloc: Global) -> Arg<'a>
    ensures rule { rule_of result ≡ workers_option }
    ensures local { result.global ≡ false }
{
    number_arg(alloc, "workers", 1, MAX_WORKERS, "4")
}

fn budget_arg<'a>(alloc: Global) -> Arg<'a>
    ensures rule { rule_of result ≡ budget_option }
    ensures local { result.global ≡ false }
{
    number_arg(alloc, "budget", 1, MAX_BUDGET, "200000")
}

fn seed_arg<'a>(alloc: Global) -> Arg<'a>
    ensures rule { rule_of result ≡ seed_option }
    ensures local { result.global ≡ false }
{
    number_arg(alloc, "seed", 0, u64::MAX, "0")
}

/// An option that takes a number in these bounds.
fn number_arg<'a>(alloc: Global, name: &'a str, low: u64, high: u64, default: &'a str) -> Arg<'a>
    ensures rule { rule_of result ≡ number_option name.entry.now low high default.entry.now }
    ensures local { result.global ≡ false }
{
    name_arg(alloc, name)
        .value_parser(ValueParser::unsigned(low, high))
        .default_value(default)
}

/// An option that takes a name.
fn name_arg<'a>(alloc: Global, name: &'a str) -> Arg<'a>
    ensures rule { rule_of result ≡ name_option name.entry.now }
    ensures local { result.global ≡ false }
{
    Arg::new(alloc, name).long(name)
}

/// A place for a name.
fn place_arg<'a>(alloc: Global, name: &'a str, required: bool) -> Arg<'a>
    ensures rule { rule_of result ≡ place name.entry.now required }
    ensures local { result.global ≡ false }
{
    Arg::new(alloc, name).required(required)
}
