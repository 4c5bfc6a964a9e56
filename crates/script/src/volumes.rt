ghost use Rattle.std.specs.Prelude.{◌≡◌, ◌<◌, ◌≤◌, false, true, IfOk, IfSome, length};
ghost use Rattle.std.specs.List.{list_any};
ghost use Rattle.mnames.specs.Names.{is_name};
ghost use Rattle.text_model.specs.Lines.{fields_of};
ghost use Rattle.script.specs.Forms.{has_name, is_fail, is_volume};
ghost use Rattle.script.specs.Heads.{fail_in, new_volume_in};
ghost use Rattle.script.specs.Lines.{number_from, new_name_in, volume_in};
ghost use Rattle.script.specs.Readers.{Gives};

use crate::fields::three_fields;
use crate::plan::{Fail, VolumeLine};
use crate::refusals::Cause;
use crate::values::{call_in, is_write_in, name_in, number_in};
use mnames::Name;

/// The number of the first volume of that name, counted from 0.
#[tactic(auto, using(crate::proofs::VolumeLaws::name_sought, std::proofs::lemmas::Grind::common_steps))]
fn number_of(volumes: &[VolumeLine], name: &[u8]) -> Option<u32>
    requires { length volumes.now < 5 }
    ensures number { result ≡ number_from 0 volumes.now name.now }
    ensures given { IfSome result (λ n. n < length volumes.now) }
{
    for (i, volume) in volumes.iter().enumerate() {
        if volume.name.as_str().as_bytes() == name {
            return Some(i as u32);
        }
    }
    None
}

/// The number of the volume that a field names, which must have been given.
#[tactic(auto, unfolding(crate::specs::Lines::volume_in))]
pub(crate) fn volume_in(volumes: &[VolumeLine], text: &[u8]) -> Result<u32, Cause>
    requires { length volumes.now < 5 }
    ensures volume { Gives (λ n. n) result (volume_in volumes.now text.now) }
    ensures given { IfOk result (λ n. n < length volumes.now) }
{
    let _name = name_in(text)?;
    number_of(volumes, text).ok_or(Cause::Unknown)
}

/// The name in a field, which no volume may have.
#[tactic(auto, using(crate::proofs::VolumeLaws::name_given), unfolding(crate::specs::Lines::new_name_in))]
pub(crate) fn new_name_in(volumes: &[VolumeLine], text: &[u8]) -> Result<Name, Cause>
    requires { length volumes.now < 5 }
    ensures name { Gives (λ n. n) result (new_name_in volumes.now text.now) }
    ensures form { IfOk result (λ n. is_name n ≡ true) }
    ensures new { IfOk result (λ n. list_any (has_name n) volumes.now ≡ false) }
{
    let name = name_in(text)?;
    match number_of(volumes, text) {
        Some(_) => Err(Cause::Twice),
        None => Ok(name),
    }
}

/// The volume of a line, whose name no volume may have.
#[tactic(auto, unfolding(crate::specs::Heads::new_volume_in, crate::specs::Forms::is_volume))]
pub(crate) fn new_volume_in(volumes: &[VolumeLine], line: &[u8]) -> Result<VolumeLine, Cause>
    requires { length volumes.now < 5 }
    ensures volume { Gives (λ v. v) result (new_volume_in volumes.now (fields_of line.now)) }
    ensures form { IfOk result (λ v. is_volume v ≡ true) }
    ensures records { IfOk result (λ v. v.records ≤ 16384) }
    ensures new { IfOk result (λ v. list_any (has_name v.name) volumes.now ≡ false) }
{
    let (name, records, entries) = three_fields(line)?;
    let name = new_name_in(volumes, name)?;
    let records = number_in(records, 1, 16384)?;
    let entries = number_in(entries, 1, 4097)?;
    Ok(VolumeLine {
        name,
        records,
        entries,
    })
}

/// The call of a line, which fails.
#[tactic(auto, unfolding(crate::specs::Heads::fail_in, crate::specs::Forms::is_fail))]
pub(crate) fn fail_in(volumes: &[VolumeLine], line: &[u8]) -> Result<Fail, Cause>
    requires { length volumes.now < 5 }
    ensures call { Gives (λ f. f) result (fail_in volumes.now (fields_of line.now)) }
    ensures form { IfOk result (λ f. is_fail (length volumes.now) f ≡ true) }
{
    let (volume, write, call) = three_fields(line)?;
    let volume = volume_in(volumes, volume)?;
    let write = is_write_in(write)?;
    let (number, onward) = call_in(call)?;
    Ok(Fail {
        volume,
        write,
        number,
        onward,
    })
}
