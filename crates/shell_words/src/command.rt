//! The command, in clap's terms.
ghost use Rattle.std.specs.Prelude.{◌≡◌, IfOk, false, map};
ghost use Rattle.clap.specs.Words.{app_of, rule_of};
ghost use Rattle.clap.specs.declared.builder.value_parser.ValueParser.TheVariants as parser;
ghost use Rattle.shell_words.specs.Command.{IsBetween, IsCommand, command_names, option_rule, store_names, word_rule};

use clap::builder::ValueParser;
use clap::{Arg, ArgAction, Command, value_parser};
use std::alloc::{AllocError, Global};

static STORES: [&str; 1] = ["mem"];

static COMMANDS: [&str; 1] = ["script"];

// The stores that there are.
fn stores<'a>() -> &'a [&'a str]
    ensures { map (λ s. s.now) result.now ≡ store_names }
{
    STORES.as_slice()
}

// The commands that there are.
fn commands<'a>() -> &'a [&'a str]
    ensures { map (λ s. s.now) result.now ≡ command_names }
{
    COMMANDS.as_slice()
}

// An argument that is named by its place, and takes one of the names.
fn word_arg<'a>(alloc: Global, id: &'a str, names: &'a [&'a str]) -> Arg<'a>
    ensures rule { rule_of result ≡ word_rule id.entry.now (parser.Names names.entry) }
    ensures local { result.global ≡ false }
{
    Arg::new(alloc, id)
        .required(true)
        .action(ArgAction::Set)
        .value_parser(names)
}

// An option that takes one value.
fn value_arg<'a>(alloc: Global, id: &'a str, values: ValueParser<'a>) -> Arg<'a>
    ensures rule { rule_of result ≡ option_rule id.entry.now values.entry }
    ensures local { result.global ≡ false }
{
    Arg::new(alloc, id)
        .long(id)
        .action(ArgAction::Set)
        .value_parser(values)
}

// Numbers from `low` to `high`.
fn number<'a>(low: u32, high: i64) -> ValueParser<'a>
    ensures { IsBetween low high result }
{
    value_parser!(u64).range(i64::from(low)..=high)
}

/// `hbase STORE COMMAND [--ttl N] [--tick N] [--rounds N]`.
pub(crate) fn hbase_command<'a>(alloc: Global) -> Result<Command<'a>, AllocError>
    ensures { IfOk result (λ c. IsCommand (app_of c)) }
{
    let store = word_arg(alloc, "STORE", stores());
    let command = word_arg(alloc, "COMMAND", commands());
    let ttl = value_arg(alloc, "ttl", number(0, 9_223_372_036_854_775_807));
    let tick = value_arg(alloc, "tick", number(1, 1_000_000));
    let rounds = value_arg(alloc, "rounds", number(0, 1_000));
    Command::new(alloc, "hbase")
        .no_binary_name(true)
        .disable_help_flag(true)
        .arg(store)?
        .arg(command)?
        .arg(ttl)?
        .arg(tick)?
        .arg(rounds)
}
