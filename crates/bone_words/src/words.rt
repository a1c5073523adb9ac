//! From the words to their settings.
ghost use Rattle.std.specs.Prelude.{◌≡◌, ◌≤◌, map, true, option_map, IfOk, IfSome};
ghost use Rattle.std.specs.String.{string_bytes};
ghost use Rattle.clap.specs.Words.{app_of, first_of, found_of, kind_of, rows_of};
ghost use Rattle.clap.specs.Faults.{is_simple_and_free};
ghost use Rattle.bone_words.specs.Commands.{extract_command as extract_app, check_command as check_app};
ghost use Rattle.bone_words.specs.Commands.{sample_command as sample_app};
ghost use Rattle.bone_words.specs.Settings.{Answers, settings_of, is_named, read_by, rows_of_words};
ghost use Rattle.bone_words.specs.Settings.{extraction_of, checking_of, sampling_of, number_at, number_in};
ghost use Rattle.bone_words.specs.Settings.{workers_in, budget_in, seed_in, told, IsWithinLimits};
ghost use Rattle.bone_words.specs.Steps.Rows.{HasRows};

use crate::asked::{Settings, WordsEnd};
use crate::commands::{
    MAX_BUDGET, MAX_CLAUSES, MAX_VARS, MAX_WORKERS, MIN_VARS, check_command, extract_command,
    sample_command,
};
use clap::error::ErrorKind;
use clap::{ArgMatches, Command, Error};
use std::alloc::{AllocError, Global};

/// The settings of the words after the program's name.
///
/// They are `extract [options] [TEXT]`, `check TEXT ANSWER PROOF [WITNESS]` or `sample [options]`. An option is
/// `--name VALUE` or `--name=VALUE`, and stands at most once. Behind a word `--` there are names alone. A number is
/// decimal digits, also with zeros and one plus before them, and lies in its range. A name may be empty, and begins
/// with a dash only behind `=` or `--`, but for `-` itself.
///
/// | Command | Options, with their ranges and defaults |
/// |---|---|
/// | `extract` | `--workers` 1 to 16, 4; `--budget` 1 to 2^40, 200000; `--seed` 0 to 2^64 - 1, 0; `--proof` and `--witness` a name, none |
/// | `sample` | `--vars` 3 to 2^20, 2000; `--clauses` 0 to 2^21, 6000; `--workers`, `--budget` and `--seed` as for `extract` |
///
/// All other words, and calls for help, are [`WordsEnd::Usage`].
pub fn settings(alloc: Global, words: &[String]) -> Result<Settings, WordsEnd>
    ensures value { Answers (settings_of (map string_bytes words.now)) result }
    ensures limits { IfOk result (λ settings. IsWithinLimits (told settings)) }
{
    if is_named(words, "extract") {
        read_extract(alloc, words)
    } else if is_named(words, "check") {
        read_check(alloc, words)
    } else if is_named(words, "sample") {
        read_sample(alloc, words)
    } else {
        Err(WordsEnd::Usage)
    }
}

/// Whether the first word is this one.
fn is_named(words: &[String], name: &str) -> bool
    ensures { result ≡ is_named name.now (map string_bytes words.now) }
{
    match words {
        [] => false,
        [word, ..] => word.as_str() == name,
    }
}

fn read_extract(alloc: Global, words: &[String]) -> Result<Settings, WordsEnd>
    ensures value { Answers (read_by extract_app extraction_of (map string_bytes words.now)) result }
    ensures limits { IfOk result (λ settings. IsWithinLimits (told settings)) }
{
    match matches_of_words(extract_command(alloc)?, words) {
        Ok(matches) => extraction_in(alloc, &matches),
        Err(end) => Err(end),
    }
}

fn read_check(alloc: Global, words: &[String]) -> Result<Settings, WordsEnd>
    ensures value { Answers (read_by check_app checking_of (map string_bytes words.now)) result }
    ensures limits { IfOk result (λ settings. IsWithinLimits (told settings)) }
{
    match matches_of_words(check_command(alloc)?, words) {
        Ok(matches) => checking_in(alloc, &matches),
        Err(end) => Err(end),
    }
}

fn read_sample(alloc: Global, words: &[String]) -> Result<Settings, WordsEnd>
    ensures value { Answers (read_by sample_app sampling_of (map string_bytes words.now)) result }
    ensures limits { IfOk result (λ settings. IsWithinLimits (told settings)) }
{
    match matches_of_words(sample_command(alloc)?, words) {
        Ok(matches) => sampling_in(&matches),
        Err(end) => Err(end),
    }
}

/// What the command makes of the words.
fn matches_of_words<'a>(
    command: Command<'a>,
    words: &'a [String],
) -> Result<ArgMatches<'a>, WordsEnd>
    requires { is_simple_and_free (app_of command) ≡ true }
    ensures { HasRows (rows_of_words (app_of command.entry) (map string_bytes words.entry.now)) result }
{
    match command.try_get_matches_from(words) {
        Ok(matches) => Ok(matches),
        Err(error) => Err(end_of(&error)),
    }
}

/// Why `clap` refused the words.
fn end_of(error: &Error) -> WordsEnd
    ensures { kind_of error.now ≡ ErrorKind.OutOfMemory → result ≡ WordsEnd.Memory }
{
    match error.kind() {
        ErrorKind::OutOfMemory => WordsEnd::Memory,
        _ => WordsEnd::Usage,
    }
}

fn extraction_in(alloc: Global, matches: &ArgMatches) -> Result<Settings, WordsEnd>
    ensures value { Answers (extraction_of (rows_of (found_of matches.now))) result }
    ensures limits { IfOk result (λ settings. IsWithinLimits (told settings)) }
{
    let Some(workers) = workers_in(matches) else {
        return Err(WordsEnd::Usage);
    };
    let Some(budget) = budget_in(matches) else {
        return Err(WordsEnd::Usage);
    };
    let Some(seed) = seed_in(matches) else {
        return Err(WordsEnd::Usage);
    };
    Ok(Settings::Extract {
        text: String::from_str(alloc, text_at(matches, "text").unwrap_or(""))?,
        proof: owned_at(alloc, matches, "proof")?,
        witness: owned_at(alloc, matches, "witness")?,
        workers,
        budget,
        seed,
    })
}

fn checking_in(alloc: Global, matches: &ArgMatches) -> Result<Settings, WordsEnd>
    ensures value { Answers (checking_of (rows_of (found_of matches.now))) result }
    ensures limits { IfOk result (λ settings. IsWithinLimits (told settings)) }
{
    let Some(text) = text_at(matches, "text") else {
        return Err(WordsEnd::Usage);
    };
    let Some(answer) = text_at(matches, "answer") else {
        return Err(WordsEnd::Usage);
    };
    let Some(proof) = text_at(matches, "proof") else {
        return Err(WordsEnd::Usage);
    };
    Ok(Settings::Check {
        text: String::from_str(alloc, text)?,
        answer: String::from_str(alloc, answer)?,
        proof: String::from_str(alloc, proof)?,
        witness: owned_at(alloc, matches, "witness")?,
    })
}

fn sampling_in(matches: &ArgMatches) -> Result<Settings, WordsEnd>
    ensures value { Answers (sampling_of (rows_of (found_of matches.now))) result }
    ensures limits { IfOk result (λ settings. IsWithinLimits (told settings)) }
{
    let Some(vars) = number_at(matches, "vars", MIN_VARS, MAX_VARS) else {
        return Err(WordsEnd::Usage);
    };
    let Some(clauses) = number_at(matches, "clauses", 0, MAX_CLAUSES) else {
        return Err(WordsEnd::Usage);
    };
    let Some(workers) = workers_in(matches) else {
        return Err(WordsEnd::Usage);
    };
    let Some(budget) = budget_in(matches) else {
        return Err(WordsEnd::Usage);
    };
    let Some(seed) = seed_in(matches) else {
        return Err(WordsEnd::Usage);
    };
    Ok(Settings::Sample {
        vars: vars as u32,
        clauses: clauses as u32,
        workers,
        budget,
        seed,
    })
}

fn workers_in(matches: &ArgMatches) -> Option<u32>
    ensures value { result ≡ workers_in (rows_of (found_of matches.now)) }
    ensures range { IfSome result (λ number. (1 ≤ number) × (number ≤ MAX_WORKERS)) }
{
    let number = number_at(matches, "workers", 1, MAX_WORKERS)?;
    Some(number as u32)
}

fn budget_in(matches: &ArgMatches) -> Option<u64>
    ensures value { result ≡ budget_in (rows_of (found_of matches.now)) }
    ensures range { IfSome result (λ number. (1 ≤ number) × (number ≤ MAX_BUDGET)) }
{
    number_at(matches, "budget", 1, MAX_BUDGET)
}

fn seed_in(matches: &ArgMatches) -> Option<u64>
    ensures { result ≡ seed_in (rows_of (found_of matches.now)) }
{
    number_at(matches, "seed", 0, u64::MAX)
}

/// The number of an option, with its bounds. There is one where the words were taken.
fn number_at(matches: &ArgMatches, id: &str, low: u64, high: u64) -> Option<u64>
    ensures value { result ≡ number_at id.now low high (rows_of (found_of matches.now)) }
    ensures range { IfSome result (λ number. (low ≤ number) × (number ≤ high)) }
{
    match text_at(matches, id) {
        Some(text) => number_in(text, low, high),
        None => None,
    }
}

/// The text of an option or a place, as one of its own.
fn owned_at(alloc: Global, matches: &ArgMatches, id: &str) -> Result<Option<String>, AllocError>
    ensures { IfOk result (λ text. option_map string_bytes text
        ≡ first_of id.now (rows_of (found_of matches.now))) }
{
    match text_at(matches, id) {
        Some(text) => Ok(Some(String::from_str(alloc, text)?)),
        None => Ok(None),
    }
}

/// The text of an option or a place.
fn text_at<'a>(matches: &ArgMatches<'a>, id: &str) -> Option<&'a str>
    ensures { option_map (λ text. text.now) result ≡ first_of id.now (rows_of (found_of matches.now)) }
{
    matches.get_str(id)
}

/// The number that a text writes, if it is in these bounds.
fn number_in(text: &str, low: u64, high: u64) -> Option<u64>
    ensures value { result ≡ number_in low high text.now }
    ensures range { IfSome result (λ number. (low ≤ number) × (number ≤ high)) }
{
    let number = text.parse().ok()?;
    if number < low {
        return None;
    }
    if number > high {
        return None;
    }
    Some(number)
}
