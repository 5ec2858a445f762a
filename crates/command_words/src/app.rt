// The commands as `clap` sees them.
ghost use Rattle.std.specs.Prelude.{◌≡◌, IfOk, false};
ghost use Rattle.clap.specs.Words.{app_of, rule_of};
ghost use Rattle.clap.specs.declared.builder.command.Command.TheViews.{out-Command as fields_of};
ghost use Rattle.command_words.specs.App as spec;

use clap::{Arg, ArgAction, Command};
use std::alloc::{AllocError, Global};

// All names of a command.
fn names_arg<'a>(alloc: Global) -> Arg<'a>
    ensures rule { rule_of result ≡ spec.names_arg }
    ensures local { result.global ≡ false }
{
    Arg::new(alloc, "names").action(ArgAction::Append)
}

// An option that stands at most once.
fn option_arg<'a>(alloc: Global, label: &'a str) -> Arg<'a>
    ensures rule { rule_of result ≡ spec.option_arg label.entry.now }
    ensures local { result.global ≡ false }
{
    Arg::new(alloc, label).long(label)
}

fn repeated_arg<'a>(alloc: Global, label: &'a str) -> Arg<'a>
    ensures rule { rule_of result ≡ spec.repeated_arg label.entry.now }
    ensures local { result.global ≡ false }
{
    option_arg(alloc, label).action(ArgAction::Append)
}

// An option without a value: its use stands for the empty text.
fn flag_arg<'a>(alloc: Global, label: &'a str) -> Arg<'a>
    ensures rule { rule_of result ≡ spec.flag_arg label.entry.now }
    ensures local { result.global ≡ false }
{
    option_arg(alloc, label)
        .action(ArgAction::Set)
        .num_args(0)
        .default_missing_value("")
}

// A command without options.
fn plain_app<'a>(alloc: Global, title: &'a str) -> Result<Command<'a>, AllocError>
    ensures app { IfOk result (λ c. app_of c ≡ spec.plain_app title.entry.now) }
    ensures local { IfOk result (λ c. (fields_of c).has_globals ≡ false) }
{
    Command::new(alloc, title).arg(names_arg(alloc))
}

// `run` with the limits.
fn limited_app<'a>(alloc: Global) -> Result<Command<'a>, AllocError>
    ensures app { IfOk result (λ c. app_of c ≡ spec.limited_app) }
    ensures local { IfOk result (λ c. (fields_of c).has_globals ≡ false) }
{
    plain_app(alloc, "run")?
        .arg(option_arg(alloc, "budget"))?
        .arg(option_arg(alloc, "events"))?
        .arg(option_arg(alloc, "miss"))
}

// And with what keeps no history.
fn unkept_app<'a>(alloc: Global) -> Result<Command<'a>, AllocError>
    ensures app { IfOk result (λ c. app_of c ≡ spec.unkept_app) }
    ensures local { IfOk result (λ c. (fields_of c).has_globals ≡ false) }
{
    limited_app(alloc)?.arg(flag_arg(alloc, "unkept"))
}

// And with what is talked with.
fn live_app<'a>(alloc: Global) -> Result<Command<'a>, AllocError>
    ensures app { IfOk result (λ c. app_of c ≡ spec.live_app) }
    ensures local { IfOk result (λ c. (fields_of c).has_globals ≡ false) }
{
    unkept_app(alloc)?.arg(flag_arg(alloc, "live"))
}

// And with how often it tells how far it has come.
fn progress_app<'a>(alloc: Global) -> Result<Command<'a>, AllocError>
    ensures app { IfOk result (λ c. app_of c ≡ spec.progress_app) }
    ensures local { IfOk result (λ c. (fields_of c).has_globals ≡ false) }
{
    live_app(alloc)?.arg(option_arg(alloc, "progress"))
}

// And with the target.
fn targeted_app<'a>(alloc: Global) -> Result<Command<'a>, AllocError>
    ensures app { IfOk result (λ c. app_of c ≡ spec.targeted_app) }
    ensures local { IfOk result (λ c. (fields_of c).has_globals ≡ false) }
{
    progress_app(alloc)?.arg(option_arg(alloc, "target"))
}

// And with the file of its order.
fn ordered_app<'a>(alloc: Global) -> Result<Command<'a>, AllocError>
    ensures app { IfOk result (λ c. app_of c ≡ spec.ordered_app) }
    ensures local { IfOk result (λ c. (fields_of c).has_globals ≡ false) }
{
    targeted_app(alloc)?.arg(option_arg(alloc, "order"))
}

fn run_app<'a>(alloc: Global) -> Result<Command<'a>, AllocError>
    ensures app { IfOk result (λ c. app_of c ≡ spec.run_app) }
    ensures local { IfOk result (λ c. (fields_of c).has_globals ≡ false) }
{
    ordered_app(alloc)?.arg(repeated_arg(alloc, "interpret"))
}

fn translate_app<'a>(alloc: Global) -> Result<Command<'a>, AllocError>
    ensures app { IfOk result (λ c. app_of c ≡ spec.translate_app) }
    ensures local { IfOk result (λ c. (fields_of c).has_globals ≡ false) }
{
    plain_app(alloc, "translate")?
        .arg(option_arg(alloc, "target"))?
        .arg(option_arg(alloc, "hints"))
}

fn replay_app<'a>(alloc: Global) -> Result<Command<'a>, AllocError>
    ensures app { IfOk result (λ c. app_of c ≡ spec.replay_app) }
    ensures local { IfOk result (λ c. (fields_of c).has_globals ≡ false) }
{
    plain_app(alloc, "replay")?.arg(option_arg(alloc, "hints"))
}

// The words begin with a command, and nothing is told of help.
fn top_app<'a>(alloc: Global) -> Command<'a>
    ensures { app_of result ≡ spec.top_app }
{
    Command::new(alloc, "vest")
        .no_binary_name(true)
        .disable_help_flag(true)
        .disable_help_subcommand(true)
        .subcommand_required(true)
}

// All commands.
pub fn vest_app<'a>(alloc: Global) -> Result<Command<'a>, AllocError>
    ensures { IfOk result (λ c. app_of c ≡ spec.vest_app) }
{
    let run = run_app(alloc)?;
    let translate = translate_app(alloc)?;
    let list = plain_app(alloc, "list")?;
    let generate = plain_app(alloc, "generate")?;
    let replay = replay_app(alloc)?;
    let with_run = top_app(alloc).subcommand(run)?;
    let with_translate = with_run.subcommand(translate)?;
    let with_list = with_translate.subcommand(list)?;
    let with_generate = with_list.subcommand(generate)?;
    with_generate.subcommand(replay)
}
