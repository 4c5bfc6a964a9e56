use mnames::{Path, path_text, read_path};
use no_memory::NoMemory;
use std::alloc::Global;

/// Where a path leads: a name in the directory above, or the root.
fn place_line(alloc: Global, path: &Path) -> Result<String, NoMemory> {
    match path.split_last() {
        Some((above, name)) => Ok(format!(in alloc; "{name} in {above}")?),
        None => Ok(String::from_str(alloc, "the root")?),
    }
}

/// A path, or how many bytes of the text a path may begin with.
pub(crate) fn path_line(alloc: Global, text: &str) -> Result<String, NoMemory> {
    let path = match read_path(text.as_bytes()) {
        Ok(path) => path,
        Err(fault) => return Ok(format!(in alloc; "none, good for {}", fault.place)?),
    };
    let written = path_text(alloc, &path)?;
    let place = place_line(alloc, &path)?;
    Ok(format!(in alloc; "{} names, {place}, written {written}", path.names().len())?)
}
