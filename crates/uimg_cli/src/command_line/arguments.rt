//! The arguments of commands.

ghost use Rattle.std.specs.Prelude.{◌≡◌, IfOk, Some, codes, false};
ghost use Rattle.clap.specs.Simple.{app_of, new_app, new_rule, with_rule};
ghost use Rattle.clap.specs.Walk.{rule_of};
ghost use Rattle.clap.specs.declared.builder.command.Command.TheViews.{out-Command as fields_of};
ghost use Rattle.uimg_cli.specs.Rules.{flag_rule, image_rule, long_rule, operand_rule, switch_rule, value_rule};

use clap::{Arg, ArgAction, Command};
use std::alloc::{AllocError, Global};

pub(super) fn titled<'a>(
    alloc: Global,
    name: &'a str,
    about: &'a str,
    notes: &'a str,
) -> Command<'a>
    ensures app { app_of result ≡ new_app name.entry.now }
    ensures local { (fields_of result).has_globals ≡ false }
{
    Command::new(alloc, name).about(about).after_help(notes)
}

pub(super) fn with<'a>(command: Command<'a>, arg: Arg<'a>) -> Result<Command<'a>, AllocError>
    requires local { arg.global ≡ false }
    ensures rules { IfOk result (λ new. app_of new ≡ with_rule (app_of command.entry)
        (rule_of arg.entry)) }
    ensures local { IfOk result (λ new.
        (fields_of new).has_globals ≡ (fields_of command.entry).has_globals) }
{
    command.arg(arg)
}

// Each further step takes the prover four times as long: two steps a function.
fn option<'a>(alloc: Global, id: &'a str, short: char, help: &'a str) -> Arg<'a>
    ensures rule { rule_of result ≡ record (new_rule id.entry.now) { short = Some short } }
    ensures local { result.global ≡ false }
{
    Arg::new(alloc, id).short(short).help(help)
}

pub(super) fn with_value<'a>(
    command: Command<'a>,
    alloc: Global,
    id: &'a str,
    short: char,
    help: &'a str,
) -> Result<Command<'a>, AllocError>
    ensures rules { IfOk result (λ new. app_of new ≡ with_rule (app_of command.entry)
        (value_rule id.entry.now short)) }
    ensures local { IfOk result (λ new.
        (fields_of new).has_globals ≡ (fields_of command.entry).has_globals) }
{
    let value = option(alloc, id, short, help)
        .action(ArgAction::Set)
        .value_name(id);
    with(command, value)
}

pub(super) fn with_flag<'a>(
    command: Command<'a>,
    alloc: Global,
    id: &'a str,
    short: char,
    help: &'a str,
) -> Result<Command<'a>, AllocError>
    ensures rules { IfOk result (λ new. app_of new ≡ with_rule (app_of command.entry)
        (flag_rule id.entry.now short)) }
    ensures local { IfOk result (λ new.
        (fields_of new).has_globals ≡ (fields_of command.entry).has_globals) }
{
    let flag = option(alloc, id, short, help).action(ArgAction::SetTrue);
    with(command, flag)
}

fn long<'a>(alloc: Global, id: &'a str, help: &'a str) -> Arg<'a>
    ensures rule { rule_of result ≡ record (new_rule id.entry.now) { long = Some id.entry.now } }
    ensures local { result.global ≡ false }
{
    Arg::new(alloc, id).long(id).help(help)
}

// Adds an option without a value and without a letter.
pub(super) fn with_switch<'a>(
    command: Command<'a>,
    alloc: Global,
    id: &'a str,
    help: &'a str,
) -> Result<Command<'a>, AllocError>
    ensures rules { IfOk result (λ new. app_of new ≡ with_rule (app_of command.entry)
        (switch_rule id.entry.now)) }
    ensures local { IfOk result (λ new.
        (fields_of new).has_globals ≡ (fields_of command.entry).has_globals) }
{
    let switch = long(alloc, id, help).action(ArgAction::SetTrue);
    with(command, switch)
}

pub(super) fn with_long<'a>(
    command: Command<'a>,
    alloc: Global,
    id: &'a str,
    value_name: &'a str,
    help: &'a str,
) -> Result<Command<'a>, AllocError>
    ensures rules { IfOk result (λ new. app_of new ≡ with_rule (app_of command.entry)
        (long_rule id.entry.now)) }
    ensures local { IfOk result (λ new.
        (fields_of new).has_globals ≡ (fields_of command.entry).has_globals) }
{
    let value = long(alloc, id, help)
        .action(ArgAction::Set)
        .value_name(value_name);
    with(command, value)
}

pub(super) fn with_image<'a>(
    command: Command<'a>,
    alloc: Global,
    help: &'a str,
) -> Result<Command<'a>, AllocError>
    ensures rules { IfOk result (λ new. app_of new ≡ with_rule (app_of command.entry) image_rule) }
    ensures local { IfOk result (λ new.
        (fields_of new).has_globals ≡ (fields_of command.entry).has_globals) }
{
    let image = Arg::new(alloc, "image").required(true).help(help);
    with(command, image)
}

// Adds an operand, which has to be there.
pub(super) fn with_operand<'a>(
    command: Command<'a>,
    alloc: Global,
    id: &'a str,
    help: &'a str,
) -> Result<Command<'a>, AllocError>
    ensures rules { IfOk result (λ new. app_of new ≡ with_rule (app_of command.entry)
        (operand_rule id.entry.now)) }
    ensures local { IfOk result (λ new.
        (fields_of new).has_globals ≡ (fields_of command.entry).has_globals) }
{
    let operand = Arg::new(alloc, id).required(true).help(help);
    with(command, operand)
}
