ghost use Rattle.std.specs.Prelude.{◌≡◌, ◌≢◌, IfOk, map, string_bytes};
ghost use Rattle.clap.specs.Simple.{app_of};
ghost use Rattle.clap.specs.Values.{kind_of};
ghost use Rattle.command_line.specs.Program.{walnut_app};
ghost use Rattle.command_line.specs.WordReading.{ReadsNames};

use clap::error::ErrorKind;
use clap::{Arg, ArgAction, Command, Error};
use std::alloc::{AllocError, Global};

/// Why the words of the command line give no options.
#[derive(Clone, Copy)]
pub enum WordsFault {
    /// They are none that the program takes.
    Refused,
    /// There was not enough memory to read them.
    Memory,
}

impl From<AllocError> for WordsFault {
    ghost use Rattle.command_line.specs.declared.words.WordsFault.TheVariants.{Memory};

    ghost from_gives = { λ _ e. e ≡ Memory };

    fn from(_: AllocError) -> WordsFault {
        WordsFault::Memory
    }
}

/// What the words name, as they have it.
#[derive(Clone, Copy)]
pub(crate) struct Named<'a> {
    /// The value of `--states`.
    pub(crate) limit: Option<&'a str>,
    /// Whether `--stop` is among them.
    pub(crate) stop: bool,
    /// The value of `--make`.
    pub(crate) seed: Option<&'a str>,
}

/// The command that takes the words.
fn program<'a>(alloc: Global) -> Result<Command<'a>, AllocError>
    ensures { IfOk result (λ command. app_of command ≡ walnut_app) }
{
    let states = Arg::new(alloc, "states")
        .long("states")
        .action(ArgAction::Set);
    let stop = Arg::new(alloc, "stop")
        .long("stop")
        .action(ArgAction::SetTrue);
    let make = Arg::new(alloc, "make").long("make").action(ArgAction::Set);
    let command = Command::new(alloc, "walnut")
        .disable_help_flag(true)
        .disable_version_flag(true)
        .arg(states)?
        .arg(stop)?
        .arg(make)?;
    Ok(command)
}

/// What the words name.
pub(crate) fn names_of(alloc: Global, words: &[String]) -> Result<Named<'_>, WordsFault>
    ensures { ReadsNames (map string_bytes words.now) result }
{
    let command = program(alloc)?;
    match command.try_get_matches_from(words) {
        Ok(matches) => Ok(Named {
            limit: matches.get_str("states"),
            stop: matches.get_flag("stop"),
            seed: matches.get_str("make"),
        }),
        Err(error) => Err(words_fault(&error)),
    }
}

/// Why a parse failed.
fn words_fault(error: &Error) -> WordsFault
    ensures { result ≡ WordsFault.Refused → kind_of error.now ≢ ErrorKind.OutOfMemory }
{
    if error.kind() == ErrorKind::OutOfMemory {
        WordsFault::Memory
    } else {
        WordsFault::Refused
    }
}
