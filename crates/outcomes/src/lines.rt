//! Lines that don't stand in each of some texts.

ghost use Rattle.std.specs.Prelude.{◌≡◌, ◌<◌, ◌++◌, ◌∷◌, OnOk, length};
ghost use Rattle.std.specs.List.{list_all};
ghost use Rattle.text_model.specs.Lines.{lines_of};
ghost use Rattle.outcomes.specs.Reports.{are_alike, differing_in, differing_line, has_line, is_common};

use crate::NoMemory;
use crate::texts::Text;
use script::next_line;

/// Whether a line stands in a text.
#[tactic(auto, using(crate::proofs::LineLaws::has_line_steps, std::proofs::lemmas::Grind::common_steps))]
fn has_line(text: &[u8], line: &[u8]) -> bool
    ensures { result ≡ has_line line.now text.now }
{
    let mut rest = text;
    while !rest.is_empty() {
        let (first, after) = next_line(rest);
        if first == line {
            return true;
        }
        rest = after;
    }
    false
}

/// Whether a line stands in each of some texts.
#[tactic(auto, unfolding(crate::specs::Reports::is_common))]
fn is_common(texts: &[Text], line: &[u8]) -> bool
    ensures { result ≡ is_common texts.now line.now }
{
    texts.iter().all(|text| has_line(text.as_slice(), line))
}

/// Whether each line of a text stands in each of some texts.
#[tactic(auto, using(crate::proofs::LineLaws::all_common_steps, std::proofs::lemmas::Grind::common_steps))]
fn all_common(texts: &[Text], text: &[u8]) -> bool
    ensures { result ≡ list_all (is_common texts.now) (lines_of text.now) }
{
    let mut rest = text;
    while !rest.is_empty() {
        let (line, after) = next_line(rest);
        if !is_common(texts, line) {
            return false;
        }
        rest = after;
    }
    true
}

/// Whether each line of each of some texts stands in all of them.
#[tactic(auto, unfolding(crate::specs::Reports::are_alike))]
pub(crate) fn are_alike(texts: &[Text]) -> bool
    ensures { result ≡ are_alike texts.now }
{
    texts.iter().all(|text| all_common(texts, text.as_slice()))
}

/// Appends a line with its line feed, unless it stands in each of some texts.
#[tactic(auto, unfolding(crate::specs::Reports::differing_line))]
fn push_if_differing(out: &mut Vec<u8>, texts: &[Text], line: &[u8]) -> Result<(), NoMemory>
    ensures { OnOk result (out.new.items ≡ out.old.items ++ differing_line texts.now line.now) }
{
    if !is_common(texts, line) {
        out.extend_from_slice(line)?;
        out.push(b'\n')?;
    }
    Ok(())
}

/// Appends the lines of a text that don't stand in each of some texts.
#[tactic(auto, using(crate::proofs::LineLaws::push_differing_steps, std::proofs::lemmas::Grind::common_steps))]
pub(crate) fn push_differing(out: &mut Vec<u8>, texts: &[Text], text: &[u8]) -> Result<(), NoMemory>
    ensures { OnOk result (out.new.items ≡ out.old.items ++ differing_in texts.now text.now) }
{
    let mut rest = text;
    while !rest.is_empty() {
        let (line, after) = next_line(rest);
        push_if_differing(out, texts, line)?;
        rest = after;
    }
    Ok(())
}
