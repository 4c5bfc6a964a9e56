//! What the drill prints.
ghost use Rattle.std.specs.Prelude.{◌≡◌, ◌++◌, ◌<◌, length, string_bytes, IfOk, OnOk};
ghost use Rattle.drill.specs.Texts.{sum_line, sum_lines, total_line, report};

use crate::errors::NoMemory;
use crate::run::Drilled;
use mword::Word;
use std::alloc::{AllocError, Global};

// Appends `cpu C adds N sum S`.
#[tactic(auto, unfolding(crate::specs::Texts::sum_line))]
fn push_sum(out: &mut String, cpu: usize, adds: u32, sum: Word) -> Result<(), AllocError>
    ensures { OnOk result (string_bytes out.new ≡ string_bytes out.old ++ sum_line cpu adds sum) }
{
    write!(out, "cpu {cpu} adds {adds} sum {sum}\n")
}

// Appends a line for each sum.
fn push_sums(out: &mut String, adds: u32, sums: &[Word]) -> Result<(), AllocError>
    ensures { OnOk result (string_bytes out.new ≡ string_bytes out.old ++ sum_lines adds 0 sums.now) }
{
    for (cpu, &sum) in sums.iter().enumerate() {
        push_sum(out, cpu, adds, sum)?;
    }
    Ok(())
}

// Appends `total W`.
#[tactic(auto, unfolding(crate::specs::Texts::total_line))]
fn push_total(out: &mut String, total: Word) -> Result<(), AllocError>
    ensures { OnOk result (string_bytes out.new ≡ string_bytes out.old ++ total_line total) }
{
    write!(out, "total {total}\n")
}

/// What the program prints of a drill of `adds` adds: a line for each processor, `cpu C adds N sum S`, and then
/// `total W`, with sums as twelve octal digits. `NoMemory` comes only from the allocator. Source: own.
#[tactic(auto, unfolding(crate::specs::Texts::report))]
pub fn drilled_text(alloc: Global, adds: u32, drilled: &Drilled) -> Result<String, NoMemory>
    ensures { IfOk result (λ text. string_bytes text ≡ report adds drilled.now.sums.items drilled.now.total) }
{
    let mut out = String::new(alloc);
    push_sums(&mut out, adds, &drilled.sums)?;
    push_total(&mut out, drilled.total)?;
    Ok(out)
}
