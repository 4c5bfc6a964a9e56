ghost use Rattle.std.specs.Prelude.{◌≡◌, ◌++◌, flat_map, IfOk, OnOk, Ok, string_bytes};
ghost use Rattle.script.specs.Grammar.{script_of};
ghost use Rattle.script.specs.Scripts.{begin_text, bulk_text, commands_text, ended, fail_text, head_text};
ghost use Rattle.script.specs.Scripts.{machine_text, print_text, process_text, processes_text, quota_text};
ghost use Rattle.script.specs.Scripts.{script_text, volume_text};
ghost use Rattle.script.specs.Forms.{IsPlan};
ghost use Rattle.script.specs.Plans.{Plan};

use crate::commands::{Command, Process};
use crate::plan::{Bulk, Fail, Print, Script, VolumeLine};
use crate::texts::{push_command, volume_name};
use mnames::Who;
pub use no_memory::NoMemory;
use std::alloc::{AllocError, Global};

/// Appends the line of the machine.
#[tactic(auto, unfolding(crate::specs::Scripts::machine_text))]
fn push_machine(
    out: &mut String,
    processors: u32,
    frames: u32,
    pools: [u32; 4],
) -> Result<(), AllocError>
    ensures { OnOk result
        (string_bytes out.new ≡ string_bytes out.old ++ ended (machine_text processors frames pools)) }
{
    write!(out, "machine {processors} {frames}")?;
    for places in pools {
        write!(out, " {places}")?;
    }
    out.push_str("\n")
}

/// Appends the line of the root's quota.
#[tactic(auto, unfolding(crate::specs::Scripts::quota_text))]
fn push_quota(out: &mut String, quota: u32) -> Result<(), AllocError>
    ensures { OnOk result (string_bytes out.new ≡ string_bytes out.old ++ ended (quota_text quota)) }
{
    writeln!(out, "quota {quota}")
}

/// Appends the line of a volume.
#[tactic(auto, unfolding(crate::specs::Scripts::volume_text))]
fn push_volume(out: &mut String, volume: &VolumeLine) -> Result<(), AllocError>
    ensures { OnOk result (string_bytes out.new ≡ string_bytes out.old ++ ended (volume_text volume.now)) }
{
    let name = &volume.name;
    let records = volume.records;
    let entries = volume.entries;
    writeln!(out, "volume {name} {records} {entries}")
}

/// Appends the lines of the volumes.
fn push_volumes(out: &mut String, volumes: &[VolumeLine]) -> Result<(), AllocError>
    ensures { OnOk result (string_bytes out.new ≡ string_bytes out.old
        ++ flat_map (λ v. ended (volume_text v)) volumes.now) }
{
    for volume in volumes {
        push_volume(out, volume)?;
    }
    Ok(())
}

/// Appends the line that says what is printed.
#[tactic(auto, unfolding(crate::specs::Scripts::print_text))]
fn push_print(out: &mut String, print: Print) -> Result<(), AllocError>
    ensures { OnOk result (string_bytes out.new ≡ string_bytes out.old ++ ended (print_text print)) }
{
    let line = match print {
        Print::Short => "print short",
        Print::Replies => "print replies",
        Print::All => "print all",
    };
    writeln!(out, "{line}")
}

/// Appends the lines of the fast stores.
#[tactic(auto, unfolding(crate::specs::Scripts::bulk_text))]
fn push_bulks(out: &mut String, volumes: &[VolumeLine], bulks: &[Bulk]) -> Result<(), AllocError>
    ensures { OnOk result (string_bytes out.new ≡ string_bytes out.old
        ++ flat_map (λ b. ended (bulk_text volumes.now b)) bulks.now) }
{
    for bulk in bulks {
        let name = volume_name(volumes, bulk.volume);
        let places = bulk.places;
        writeln!(out, "bulk {name} {places}")?;
    }
    Ok(())
}

/// Appends the line of a call that fails.
#[tactic(auto, unfolding(crate::specs::Scripts::fail_text))]
fn push_fail(out: &mut String, volumes: &[VolumeLine], fail: &Fail) -> Result<(), AllocError>
    ensures { OnOk result (string_bytes out.new ≡ string_bytes out.old ++ ended (fail_text volumes.now fail.now)) }
{
    let name = volume_name(volumes, fail.volume);
    let call = if fail.write { "write" } else { "read" };
    let number = fail.number;
    let onward = if fail.onward { "+" } else { "" };
    writeln!(out, "fail {name} {call} {number}{onward}")
}

/// Appends the lines of the calls that fail.
fn push_fails(out: &mut String, volumes: &[VolumeLine], fails: &[Fail]) -> Result<(), AllocError>
    ensures { OnOk result (string_bytes out.new ≡ string_bytes out.old
        ++ flat_map (λ f. ended (fail_text volumes.now f)) fails.now) }
{
    for fail in fails {
        push_fail(out, volumes, fail)?;
    }
    Ok(())
}

/// Appends what stands before the processes.
#[tactic(auto, unfolding(crate::specs::Scripts::head_text))]
fn push_head(out: &mut String, script: &Script) -> Result<(), AllocError>
    ensures { OnOk result (string_bytes out.new ≡ string_bytes out.old ++ head_text script.now) }
{
    let parts = &script.parts;
    push_machine(out, parts.processors, parts.frames, parts.pools)?;
    push_quota(out, parts.quota)?;
    push_volumes(out, &parts.volumes)?;
    push_print(out, parts.print)?;
    push_bulks(out, &parts.volumes, &parts.bulks)?;
    push_fails(out, &parts.volumes, &parts.fails)
}

/// Appends the lines of commands.
#[tactic(auto, unfolding(crate::specs::Scripts::commands_text))]
fn push_commands(
    out: &mut String,
    volumes: &[VolumeLine],
    commands: &[Command],
) -> Result<(), AllocError>
    ensures { OnOk result (string_bytes out.new ≡ string_bytes out.old ++ commands_text volumes.now commands.now) }
{
    for command in commands {
        push_command(out, volumes, command)?;
        out.push_str("\n")?;
    }
    Ok(())
}

/// Appends the first line of a process.
#[tactic(auto, unfolding(crate::specs::Scripts::begin_text))]
fn push_begin(out: &mut String, initializer: bool, who: &Who) -> Result<(), AllocError>
    ensures { OnOk result (string_bytes out.new ≡ string_bytes out.old ++ ended (begin_text initializer who.now)) }
{
    if initializer {
        writeln!(out, "initializer")
    } else {
        writeln!(out, "process {who}")
    }
}

/// Appends the lines of a process.
#[tactic(auto, unfolding(crate::specs::Scripts::process_text))]
fn push_process(
    out: &mut String,
    volumes: &[VolumeLine],
    initializer: bool,
    process: &Process,
) -> Result<(), AllocError>
    ensures { OnOk result (string_bytes out.new ≡ string_bytes out.old
        ++ process_text volumes.now initializer process.now) }
{
    push_begin(out, initializer, process.who())?;
    push_commands(out, volumes, process.commands())
}

/// Appends the lines of the processes. Only the first can be the initializer.
fn push_processes(
    out: &mut String,
    volumes: &[VolumeLine],
    initializer: bool,
    processes: &[Process],
) -> Result<(), AllocError>
    ensures { OnOk result (string_bytes out.new ≡ string_bytes out.old
        ++ processes_text volumes.now initializer processes.now) }
{
    let mut first = initializer;
    for process in processes {
        push_process(out, volumes, first, process)?;
        first = false;
    }
    Ok(())
}

/// Appends the text of a script.
#[tactic(auto, unfolding(crate::specs::Scripts::script_text))]
fn push_script(out: &mut String, script: &Script) -> Result<(), AllocError>
    ensures { OnOk result (string_bytes out.new ≡ string_bytes out.old ++ script_text script.now) }
{
    push_head(out, script)?;
    let parts = &script.parts;
    push_processes(out, &parts.volumes, parts.initializer, &parts.processes)
}

/// The canonical text of a script (own): one space between fields, no leading zeros, words of 12 octal digits, and a
/// line that says what is printed, but no line that is skipped.
#[tactic(auto, using(crate::proofs::ScriptTexts::text_read_again, std::proofs::lemmas::Grind::common_steps))]
pub fn script_text(alloc: Global, script: &Script) -> Result<Vec<u8>, NoMemory>
    ensures text { IfOk result (λ text. text.items ≡ script_text script.now) }
    // it is read back as the script
    ensures again { IfOk result (λ text. script_of text.items ≡ Ok script.now) }
{
    script.promise();
    let mut out = String::new(alloc);
    match push_script(&mut out, script) {
        Ok(()) => Ok(out.into_bytes()),
        Err(_) => Err(NoMemory),
    }
}

/// The canonical text of each script is read back as that script: a law, which runs no code (own).
pub fn each_text_is_read_again()
    ensures { (p : Plan) → IsPlan p → script_of (script_text p) ≡ Ok p }
{}
