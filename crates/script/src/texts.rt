ghost use Rattle.std.specs.Prelude.{◌≡◌, ◌++◌, OnOk, string_bytes};
ghost use Rattle.std.specs.Int.{is_negative};
ghost use Rattle.script.specs.Texts.{arguments_text, command_text, mode_text, path_fields_text, reference_text};
ghost use Rattle.script.specs.Texts.{sign_text, volume_name, word_text};

use crate::commands::Command;
use crate::plan::VolumeLine;
use mnames::Mode;
use std::alloc::AllocError;

/// The name of the volume of that number.
pub(crate) fn volume_name(volumes: &[VolumeLine], volume: u32) -> &str
    ensures { result.now ≡ volume_name volumes.now volume }
{
    match volumes.get(volume as usize) {
        Some(line) => line.name.as_str(),
        None => "",
    }
}

/// The letters of a mode of access.
#[tactic(auto, unfolding(crate::specs::Texts::mode_text))]
fn mode_text(mode: Mode) -> &'static str
    ensures { result.now ≡ mode_text mode }
{
    match mode {
        Mode::Null => "n",
        Mode::Read => "r",
        Mode::Write => "w",
        Mode::Both => "rw",
    }
}

/// The sign of an amount of quota.
#[tactic(auto, unfolding(crate::specs::Texts::sign_text))]
fn sign_text(amount: i32) -> &'static str
    ensures { result.now ≡ sign_text (is_negative amount) }
{
    if amount < 0 { "-" } else { "+" }
}

/// The word of a command.
#[tactic(auto, unfolding(crate::specs::Texts::word_text))]
fn word_text(command: &Command) -> &'static str
    ensures { result.now ≡ word_text command.now }
{
    match command {
        Command::MkDir { .. } => "mkdir",
        Command::MkSeg { .. } => "mkseg",
        Command::Initiate { .. } => "initiate",
        Command::Terminate { .. } => "terminate",
        Command::Read { .. } => "read",
        Command::Write { .. } => "write",
        Command::Add { .. } => "add",
        Command::Await { .. } => "await",
        Command::Acl { .. } => "acl",
        Command::Length { .. } => "length",
        Command::Truncate { .. } => "truncate",
        Command::Delete { .. } => "delete",
        Command::Move { .. } => "move",
        Command::Status { .. } => "status",
        Command::End => "end",
    }
}

/// Appends the fields of a command that names a segment by its number.
#[tactic(auto, unfolding(crate::specs::Texts::reference_text))]
fn push_reference(out: &mut String, command: &Command) -> Result<(), AllocError>
    ensures { OnOk result (string_bytes out.new ≡ string_bytes out.old ++ reference_text command.now) }
{
    match command {
        Command::Terminate { number } => write!(out, " {number}"),
        Command::Read { number, offset } => write!(out, " {number} {offset}"),
        Command::Write {
            number,
            offset,
            word,
        }
        | Command::Add {
            number,
            offset,
            word,
        } => write!(out, " {number} {offset} {word}"),
        Command::Await {
            number,
            offset,
            word,
            tries,
        } => write!(out, " {number} {offset} {word} {tries}"),
        _ => Ok(()),
    }
}

/// Appends the fields of a command that names no volume.
#[tactic(auto, unfolding(crate::specs::Texts::path_fields_text))]
fn push_path_fields(out: &mut String, command: &Command) -> Result<(), AllocError>
    ensures { OnOk result (string_bytes out.new ≡ string_bytes out.old ++ path_fields_text command.now) }
{
    match command {
        Command::Initiate { path } | Command::Delete { path } | Command::Status { path } => {
            write!(out, " {path}")
        }
        Command::Length {
            path,
            pages: number,
        }
        | Command::Truncate {
            path,
            words: number,
        } => write!(out, " {path} {number}"),
        Command::Acl { path, row, mode } => {
            let mode = mode_text(*mode);
            write!(out, " {path} {row} {mode}")
        }
        Command::Move { path, amount } => {
            let sign = sign_text(*amount);
            let size = amount.unsigned_abs();
            write!(out, " {path} {sign}{size}")
        }
        _ => push_reference(out, command),
    }
}

/// Appends the fields of a command.
#[tactic(auto, unfolding(crate::specs::Texts::arguments_text))]
fn push_arguments(
    out: &mut String,
    volumes: &[VolumeLine],
    command: &Command,
) -> Result<(), AllocError>
    ensures { OnOk result (string_bytes out.new ≡ string_bytes out.old ++ arguments_text volumes.now command.now) }
{
    match command {
        Command::MkDir { path, volume } => {
            let name = volume_name(volumes, *volume);
            write!(out, " {path} {name}")
        }
        Command::MkSeg {
            path,
            pages,
            volume,
        } => {
            let name = volume_name(volumes, *volume);
            write!(out, " {path} {pages} {name}")
        }
        _ => push_path_fields(out, command),
    }
}

/// Appends the canonical text of a command of a script with these volumes (own). Words have 12 octal digits, other
/// numbers are decimal, and quota that is moved has a sign.
#[tactic(auto, unfolding(crate::specs::Texts::command_text))]
pub fn push_command(
    out: &mut String,
    volumes: &[VolumeLine],
    command: &Command,
) -> Result<(), AllocError>
    ensures { OnOk result (string_bytes out.new ≡ string_bytes out.old ++ command_text volumes.now command.now) }
{
    out.push_str(word_text(command))?;
    push_arguments(out, volumes, command)
}
