ghost use Rattle.std.specs.Prelude.{◌≡◌, ◌++◌, OnOk, Some, string_bytes};
ghost use Rattle.line_reasons.specs.SumTexts.{account_reason_text, name_of, number_text, sum_reason_text};
ghost use Rattle.line_reasons.specs.SumTexts.{sum_word_text};

use script::{Script, VolumeLine};
use std::alloc::AllocError;
use std::fmt;

/// A word that stands before a number in a line of the summary.
#[derive(Clone, Copy, Debug, PartialEq, Eq)]
pub enum SumWord {
    /// `quota`.
    Quota,
    /// `used`.
    Used,
    /// `records`.
    Records,
    /// `taken`.
    Taken,
    /// `entries`.
    Entries,
}

impl SumWord {
    /// The word itself.
    #[tactic(auto, unfolding(crate::specs::SumTexts::sum_word_text))]
    fn as_str(self) -> &'static str
        ensures { result.now ≡ sum_word_text self }
    {
        match self {
            SumWord::Quota => "quota",
            SumWord::Used => "used",
            SumWord::Records => "records",
            SumWord::Taken => "taken",
            SumWord::Entries => "entries",
        }
    }
}

impl fmt::Display for SumWord {
    ghost output = { λ w. Some (sum_word_text w) };

    fn fmt<W: fmt::Write>(&self, f: &mut fmt::Formatter<W>) -> fmt::Result {
        f.write_str(self.as_str())
    }
}

/// Why a line of the summary isn't the one that is due there, or what is due past the last. Fields are counted from 1,
/// with a single space between each two; volumes are counted from 0.
#[derive(Clone, Copy, Debug, PartialEq, Eq)]
pub enum SumReason {
    /// The line of an account isn't there: its uid, quota and used count.
    AccountMissing(u32, u32, u32),
    /// The line of a volume isn't there: its number, its taken records and its taken VTOC entries.
    VolumeMissing(u32, u32, u32),
    /// No line is due here.
    TooMany,
    /// Field 1 isn't the path of the account of this uid.
    Path(u32),
    /// A field isn't this word, in the line of the account of this uid.
    AccountWord(u32, SumWord, u32),
    /// Field 3 isn't the quota of the account of this uid: the uid and the quota.
    Quota(u32, u32),
    /// Field 5 isn't the used count of the account of this uid: the uid and the count.
    Used(u32, u32),
    /// The line of the account of this uid has a field more.
    AccountFields(u32),
    /// Field 1 isn't `volume`, where the line of this volume is due.
    VolumeFirst(u32),
    /// Field 2 isn't the name of this volume.
    VolumeName(u32),
    /// A field isn't this word, in the line of this volume.
    VolumeWord(u32, SumWord, u32),
    /// Field 4 isn't the number of records of this volume: the volume and the number.
    Records(u32, u32),
    /// Field 6 isn't the number of taken records of this volume: the volume and the number.
    Taken(u32, u32),
    /// Field 8 isn't the number of VTOC entries of this volume: the volume and the number.
    Entries(u32, u32),
    /// Field 10 isn't the number of taken VTOC entries of this volume: the volume and the number.
    TakenEntries(u32, u32),
    /// The line of this volume has a field more.
    VolumeFields(u32),
}

/// The name of the volume of that number.
fn name_of(volumes: &[VolumeLine], volume: u32) -> &str
    ensures { result.now ≡ name_of volumes.now volume }
{
    match volumes.get(volume as usize) {
        Some(line) => line.name.as_str(),
        None => "",
    }
}

/// Appends that a field should read as a number, which is that of the account or the volume that is named last.
fn push_number(
    out: &mut String,
    field: u32,
    number: u32,
    name: &str,
    of: u32,
) -> Result<(), AllocError>
    ensures { OnOk result (string_bytes out.new ≡ string_bytes out.old ++ number_text field number name.now of) }
{
    write!(out, "field {field} should read {number}, the {name} {of}")
}

/// Appends the text of a reason that speaks of an account or of no line; of any other nothing.
#[tactic(auto, unfolding(crate::specs::SumTexts::account_reason_text))]
fn push_account_reason(out: &mut String, reason: SumReason) -> Result<(), AllocError>
    ensures { OnOk result (string_bytes out.new ≡ string_bytes out.old ++ account_reason_text reason) }
{
    match reason {
        SumReason::AccountMissing(u, q, n) => write!(
            out,
            "the input ends before the line of uid {u}, quota {q} used {n}"
        ),
        SumReason::TooMany => write!(out, "the summary has all its lines before this one"),
        SumReason::Path(u) => write!(
            out,
            "field 1 should read as the path of uid {u}, whose line comes here"
        ),
        SumReason::AccountWord(n, word, u) => {
            write!(out, "field {n} should read {word} in the line of uid {u}")
        }
        SumReason::Quota(u, q) => push_number(out, 3, q, "quota of uid", u),
        SumReason::Used(u, n) => push_number(out, 5, n, "used count of uid", u),
        SumReason::AccountFields(u) => write!(out, "the line of uid {u} should have 5 fields"),
        _ => Ok(()),
    }
}

/// Appends the text of a reason, which names a volume of the script by its name where the line should.
///
/// # Errors
/// `AllocError` is want of memory for the text.
#[tactic(auto, unfolding(crate::specs::SumTexts::sum_reason_text))]
pub fn push_sum_reason(
    out: &mut String,
    script: &Script,
    reason: SumReason,
) -> Result<(), AllocError>
    ensures { OnOk result (string_bytes out.new ≡ string_bytes out.old ++ sum_reason_text script.now reason) }
{
    match reason {
        SumReason::VolumeMissing(v, t, g) => write!(
            out,
            "the input ends before the line of volume {v}, taken {t} and taken {g}"
        ),
        SumReason::VolumeFirst(v) => write!(
            out,
            "field 1 should read volume, for the line of volume {v} comes here"
        ),
        SumReason::VolumeName(v) => {
            let name = name_of(script.volumes(), v);
            write!(out, "field 2 should read {name}, the name of volume {v}")
        }
        SumReason::VolumeWord(n, word, v) => write!(
            out,
            "field {n} should read {word} in the line of volume {v}"
        ),
        SumReason::Records(v, n) => push_number(out, 4, n, "records of volume", v),
        SumReason::Taken(v, n) => push_number(out, 6, n, "taken records of volume", v),
        SumReason::Entries(v, n) => push_number(out, 8, n, "VTOC entries of volume", v),
        SumReason::TakenEntries(v, n) => push_number(out, 10, n, "taken VTOC entries of volume", v),
        SumReason::VolumeFields(v) => write!(out, "the line of volume {v} should have 10 fields"),
        other => push_account_reason(out, other),
    }
}
