ghost use Rattle.std.specs.Prelude.{◌≡◌, ◌≤◌, ◌<◌, ◌++◌, ◌+◌, List, [], codes, OnOk, string_bytes};
ghost use Rattle.std.specs.Fmt.{decimal};
ghost use Rattle.mword.specs.Octal.{octal_digits};
ghost use Rattle.script.specs.Scripts.{ended};
ghost use Rattle.script.specs.Texts.{command_text};
ghost use Rattle.make_work.specs.Day.{made};
ghost use Rattle.make_work.specs.Lines.{lines_of, user_text, users_text};
ghost use Rattle.make_work.specs.References.{reference_at, references, state_after, state_at};

use draws::Draws;
use mword::Word;
use script::{Command, push_command};
use std::alloc::AllocError;

/// How many users there are.
const USERS: u32 = 4;

/// How many references each user makes.
const REFERENCES: u32 = 1996;

/// What stands before the users.
const FRONT: &str = "\
machine 4 64 12 1 3 1
quota 4000
volume alpha 4096 64
volume beta 4096 64
print short
initializer
mkdir >a alpha
move >a +1000
mkdir >b beta
move >b +1000
mkseg >a>shared 16 alpha
acl >a>shared * rw
mkseg >counter 1 beta
acl >counter * rw
mkseg >b>own1 64 beta
acl >b>own1 * rw
mkseg >b>own2 64 beta
acl >b>own2 * rw
mkseg >b>own3 64 beta
acl >b>own3 * rw
mkseg >b>own4 64 beta
acl >b>own4 * rw
end
";

/// The word of a small number.
fn word_of(value: u32) -> Word
    ensures { result ≡ value }
{
    match Word::new(u64::from(value)) {
        Some(word) => word,
        None => unreachable!(),
    }
}

/// A reference, as numbers are drawn.
#[tactic(auto, unfolding(crate::specs::References::reference_at, crate::specs::References::state_after))]
fn draw_reference(draws: &mut Draws) -> Command
    ensures reference { result ≡ reference_at draws.old.state }
    ensures state { draws.new.state ≡ state_after draws.old.state }
{
    match draws.draw(8) {
        0 | 1 => Command::Add {
            number: 0,
            offset: 0,
            word: word_of(1 + draws.draw(7)),
        },
        2 | 3 => Command::Read {
            number: 1,
            offset: draws.draw(16_384),
        },
        4 => {
            let offset = draws.draw(16_384);
            let word = word_of(1 + draws.draw(511));
            Command::Write {
                number: 1,
                offset,
                word,
            }
        }
        5 | 6 => {
            let offset = draws.draw(65_536);
            let word = word_of(draws.draw(8));
            Command::Write {
                number: 2,
                offset,
                word,
            }
        }
        _ => Command::Read {
            number: 2,
            offset: draws.draw(65_536),
        },
    }
}

/// Appends the lines of a user's references.
fn push_references(out: &mut String, draws: &mut Draws) -> Result<(), AllocError>
    ensures text { OnOk result (string_bytes out.new ≡ string_bytes out.old
        ++ lines_of (references 1996 draws.old.state)) }
    ensures state { OnOk result (draws.new.state ≡ state_at 1996 draws.old.state) }
{
    for _made in 0..REFERENCES {
        let reference = draw_reference(draws);
        push_command(out, &[], &reference)?;
        out.push_str("\n")?;
    }
    Ok(())
}

/// Appends the lines of user `j`.
fn push_user(out: &mut String, j: u32, draws: &mut Draws) -> Result<(), AllocError>
    requires { j < 10 }
    ensures text { OnOk result (string_bytes out.new ≡ string_bytes out.old ++ user_text j draws.old.state) }
    ensures state { OnOk result (draws.new.state ≡ state_at 1996 draws.old.state) }
{
    write!(
        out,
        "process User{j}\ninitiate >counter\ninitiate >a>shared\ninitiate >b>own{j}\n"
    )?;
    push_references(out, draws)?;
    writeln!(out, "end")
}

/// Appends the lines of all users.
fn push_users(out: &mut String, mut draws: Draws) -> Result<(), AllocError>
    ensures { OnOk result (string_bytes out.new ≡ string_bytes out.old ++ users_text 1 4 draws.state) }
{
    for j in 1..USERS + 1 {
        push_user(out, j, &mut draws)?;
    }
    Ok(())
}

/// Appends the whole script.
pub(crate) fn push_day(out: &mut String, draws: Draws) -> Result<(), AllocError>
    requires { string_bytes out.old ≡ [] }
    ensures { OnOk result (string_bytes out.new ≡ made draws.state) }
{
    out.push_str(FRONT)?;
    push_users(out, draws)
}
