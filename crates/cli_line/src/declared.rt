//! The command that is declared to `clap`.

ghost use Rattle.std.specs.Prelude.{◌≡◌, IfOk, fold};
ghost use Rattle.clap.specs.Words.{app_of, with_rule};
ghost use Rattle.cli_line.specs.Syntax.{block_rules, declared_command, extent_rules, form_rules, long_rule, long_switch_rule, option_rule, record_rules, script_rules, shape_rules, switch_rule};

use crate::texts::version_text;
use clap::{Arg, ArgAction, Command};
use std::alloc::{AllocError, Global};

/// The one command that reads all command lines: a command's name is its first word that is no
/// option, so options may stand on both sides of it.
pub(crate) fn declared<'a>(alloc: Global) -> Result<Command<'a>, AllocError>
    ensures { IfOk result (λ c. app_of c ≡ declared_command) }
{
    // That a version is declared makes `--version` a request; `clap` itself prints nothing.
    let command = Command::new(alloc, "pgwal").version(version_text());
    let command = command.arg(Arg::new(alloc, "command"))?;
    let command = command.arg(Arg::new(alloc, "topic"))?;
    let command = with_shape_options(alloc, command)?;
    let command = with_script_options(alloc, command)?;
    let command = with_record_options(alloc, command)?;
    let command = with_block_options(alloc, command)?;
    let command = with_extent_options(alloc, command)?;
    with_form_options(alloc, command)
}

// The options that say what shape the log has.
fn with_shape_options<'a>(alloc: Global, command: Command<'a>) -> Result<Command<'a>, AllocError>
    ensures { IfOk result (λ c. app_of c ≡ fold with_rule (app_of command.entry) shape_rules) }
{
    let command = with_long_option(alloc, command, "seg")?;
    let command = with_long_option(alloc, command, "ring")?;
    with_long_option(alloc, command, "cap")
}

// The option that `run` and `gen` alone take, those that `run` alone takes, and the ones that
// `replay` and that `send` alone takes.
fn with_script_options<'a>(alloc: Global, command: Command<'a>) -> Result<Command<'a>, AllocError>
    ensures { IfOk result (λ c. app_of c ≡ fold with_rule (app_of command.entry) script_rules) }
{
    let command = with_long_switch(alloc, command, "list")?;
    let command = with_long_option(alloc, command, "writer")?;
    let command = with_long_switch(alloc, command, "append")?;
    let command = with_long_option(alloc, command, "crash")?;
    with_long_option(alloc, command, "from")
}

// The options that say which records are listed.
fn with_record_options<'a>(alloc: Global, command: Command<'a>) -> Result<Command<'a>, AllocError>
    ensures { IfOk result (λ c. app_of c ≡ fold with_rule (app_of command.entry) record_rules) }
{
    let command = with_option(alloc, command, "rmgr", 'r')?;
    let command = with_option(alloc, command, "xid", 'x')?;
    with_switch(alloc, command, "fullpage", 'w')
}

// The options that say which blocks a listed record has.
fn with_block_options<'a>(alloc: Global, command: Command<'a>) -> Result<Command<'a>, AllocError>
    ensures { IfOk result (λ c. app_of c ≡ fold with_rule (app_of command.entry) block_rules) }
{
    let command = with_option(alloc, command, "relation", 'R')?;
    let command = with_option(alloc, command, "block", 'B')?;
    with_option(alloc, command, "fork", 'F')
}

// The options that say where a listing begins and ends.
fn with_extent_options<'a>(alloc: Global, command: Command<'a>) -> Result<Command<'a>, AllocError>
    ensures { IfOk result (λ c. app_of c ≡ fold with_rule (app_of command.entry) extent_rules) }
{
    let command = with_option(alloc, command, "start", 's')?;
    let command = with_option(alloc, command, "end", 'e')?;
    with_option(alloc, command, "limit", 'n')
}

// The options that say what is printed.
fn with_form_options<'a>(alloc: Global, command: Command<'a>) -> Result<Command<'a>, AllocError>
    ensures { IfOk result (λ c. app_of c ≡ fold with_rule (app_of command.entry) form_rules) }
{
    let command = with_switch(alloc, command, "quiet", 'q')?;
    let command = with_switch(alloc, command, "stats", 'z')?;
    with_long_switch(alloc, command, "times")
}

// An option with a value, which has no letter.
fn with_long_option<'a>(
    alloc: Global,
    command: Command<'a>,
    name: &'a str,
) -> Result<Command<'a>, AllocError>
    ensures { IfOk result (λ c. app_of c
        ≡ with_rule (app_of command.entry) (long_rule name.entry.now)) }
{
    command.arg(Arg::new(alloc, name).long(name))
}

// An option without one, which has no letter.
fn with_long_switch<'a>(
    alloc: Global,
    command: Command<'a>,
    name: &'a str,
) -> Result<Command<'a>, AllocError>
    ensures { IfOk result (λ c. app_of c
        ≡ with_rule (app_of command.entry) (long_switch_rule name.entry.now)) }
{
    let switch = Arg::new(alloc, name).long(name).action(ArgAction::SetTrue);
    command.arg(switch)
}

// An option with a value.
fn with_option<'a>(
    alloc: Global,
    command: Command<'a>,
    name: &'a str,
    letter: char,
) -> Result<Command<'a>, AllocError>
    ensures { IfOk result (λ c. app_of c
        ≡ with_rule (app_of command.entry) (option_rule name.entry.now letter)) }
{
    command.arg(Arg::new(alloc, name).long(name).short(letter))
}

// An option without one.
fn with_switch<'a>(
    alloc: Global,
    command: Command<'a>,
    name: &'a str,
    letter: char,
) -> Result<Command<'a>, AllocError>
    ensures { IfOk result (λ c. app_of c
        ≡ with_rule (app_of command.entry) (switch_rule name.entry.now letter)) }
{
    let switch = Arg::new(alloc, name)
        .long(name)
        .short(letter)
        .action(ArgAction::SetTrue);
    command.arg(switch)
}
