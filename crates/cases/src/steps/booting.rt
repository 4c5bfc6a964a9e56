//! The machine that a case begins with.

use crate::texts::script_of;
use bulk_store::AnyDrive;
use machine::Machine;
use no_memory::NoMemory;
use runner::drives_of;
use std::alloc::{AllocError, Global};

/// A case asks for what can't be had, or there is no memory for it.
#[derive(Clone, Copy, Debug)]
pub(crate) struct Stuck;

impl From<NoMemory> for Stuck {
    fn from(_: NoMemory) -> Self {
        Stuck
    }
}

impl From<AllocError> for Stuck {
    fn from(_: AllocError) -> Self {
        Stuck
    }
}

/// The machine of a script before its first step.
pub(crate) fn booted(alloc: Global, text: &str) -> Result<Machine<AnyDrive>, Stuck> {
    let script = script_of(alloc, text)?;
    let drives = drives_of(alloc, &script)?;
    Ok(Machine::boot(alloc, script, drives)?)
}
