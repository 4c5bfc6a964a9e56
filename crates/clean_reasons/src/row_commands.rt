ghost use Rattle.std.specs.Prelude.{◌≡◌, ℕ, MatchOption, Option, None, Some};
ghost use Rattle.script.specs.Plans.{Plan};
ghost use Rattle.flat_model.specs.Store.{Store, known_uid};
ghost use Rattle.flat_store.specs.Shown.{Shows};
ghost use Rattle.custody_model.specs.Custody.{bound_page};
ghost use Rattle.custody_model.specs.Allowed.{IsPageAt, MayGoThrough, MayGoWithout, is_word_or_done, next_command};
ghost use Rattle.custody.specs.Tables.{AreTablesOf, custody_of, seat_at};
ghost use Rattle.clean_reasons.specs.Reasons.{CommandSays, IsSo, SeatSays, Tells, word_of};
ghost use Rattle.clean_reasons.specs.Rows.{IsCommandOf, IsOfHolding, IsOfRunning, next_reference};
ghost use Rattle.clean_reasons.specs.Answers.{HoldsBoth, IsNextTree, MayAnswerReference, MayAnswerTree, as_entry};

use crate::reasons::{
    Absent, CommandAt, CommandReason, CommandWord, DescriptorAt, DescriptorReason, FrameReason,
    Held, PageOf, Reason, SeatReason,
};
use crate::row_effects::against_effect;
use crate::seeking::bound_page;
use book::Reply;
use custody::{Custody, is_effective};
use flat_store::{FlatStore, command_at};
use mword::Page;
use script::{Command, Reference, Script};

/// The first word of a command.
fn word_of(command: &Command) -> CommandWord
    ensures { result ≡ word_of command.now }
{
    match command {
        Command::MkDir { .. } => CommandWord::MkDir,
        Command::MkSeg { .. } => CommandWord::MkSeg,
        Command::Initiate { .. } => CommandWord::Initiate,
        Command::Terminate { .. } => CommandWord::Terminate,
        Command::Read { .. } => CommandWord::Read,
        Command::Write { .. } => CommandWord::Write,
        Command::Add { .. } => CommandWord::Add,
        Command::Await { .. } => CommandWord::Await,
        Command::Acl { .. } => CommandWord::Acl,
        Command::Length { .. } => CommandWord::Length,
        Command::Truncate { .. } => CommandWord::Truncate,
        Command::Delete { .. } => CommandWord::Delete,
        Command::Move { .. } => CommandWord::Move,
        Command::Status { .. } => CommandWord::Status,
        Command::End => CommandWord::End,
    }
}

/// Whether a word was reached, or the command is done.
fn is_word_or_done(reply: &Reply) -> bool
    ensures { result ≡ is_word_or_done reply.now }
{
    matches!(reply, Reply::Word(_) | Reply::Done)
}

/// A command of a process, as an entry answers it: the processor, the command's place, and the reply.
#[derive(Clone, Copy)]
pub(crate) struct Answer {
    pub(crate) process: u32,
    pub(crate) place: u32,
    pub(crate) cpu: u32,
    pub(crate) reply: Reply,
}

/// Why a processor doesn't run a process.
fn against_running(custody: &Custody, cpu: u32, process: u32) -> Option<SeatReason>
    ensures { MatchOption result ((seat_at custody.now.seats cpu).process ≡ Some process)
        (λ r. IsOfRunning cpu process r × SeatSays (custody_of custody.now) r) }
{
    match custody.process_of(cpu) {
        None => Some(SeatReason::Idle { cpu }),
        Some(runs) if runs != process => Some(SeatReason::OtherProcess { cpu, runs, process }),
        Some(_) => None,
    }
}

/// Why a processor lacks what a reference goes through.
fn against_holding(custody: &Custody, answer: Answer, frame: u32, number: u32) -> Option<SeatReason>
    ensures { MatchOption result (HoldsBoth (seat_at custody.now.seats answer.cpu) number frame)
        (λ r. IsOfHolding answer.cpu answer.process number frame r × SeatSays (custody_of custody.now) r) }
{
    let Answer { process, cpu, .. } = answer;
    if !custody.holds_seg(cpu, number) {
        let held = Held::Descriptor(DescriptorAt { process, number });
        return Some(SeatReason::Lacks { cpu, held });
    }
    if !custody.holds_page(cpu, frame) {
        let held = Held::Frame(frame);
        return Some(SeatReason::Lacks { cpu, held });
    }
    None
}

/// Why a frame hasn't the page of a reference.
fn against_page(
    store: &FlatStore,
    custody: &Custody,
    answer: Answer,
    frame: u32,
    reference: &Reference,
) -> Option<Reason>
    ensures { (p : Plan) (s : Store) → Shows p store.now s → next_reference p s answer.process ≡ Some reference.now
        → MatchOption result (IsPageAt (known_uid s answer.process reference.now.number) reference.now.offset
        (bound_page ((custody_of custody.now).frame frame)))
        (IsSo p s (custody_of custody.now) (as_entry answer (Some frame))) }
{
    let process = answer.process;
    let number = reference.number;
    let Some(uid) = store.known(process, number) else {
        return Some(Reason::Descriptor(DescriptorReason::Unknown { number, process }));
    };
    let Some((of, at)) = bound_page(custody.frame(frame)) else {
        return Some(Reason::Frame(FrameReason::NoPage { frame }));
    };
    let page = reference.offset / Page::WORDS;
    if of == uid && at == page {
        None
    } else {
        let other = PageOf { uid: of, page: at };
        let page = PageOf { uid, page };
        Some(Reason::Frame(FrameReason::OtherPage { frame, other, page }))
    }
}

/// Why a reference may not go through a frame.
fn against_through(
    store: &FlatStore,
    custody: &Custody,
    answer: Answer,
    frame: u32,
    reference: &Reference,
) -> Option<Reason>
    ensures { (p : Plan) (s : Store) → Shows p store.now s → next_reference p s answer.process ≡ Some reference.now
        → MatchOption result
        (MayGoThrough s (custody_of custody.now) answer.cpu answer.process frame reference.now answer.reply)
        (IsSo p s (custody_of custody.now) (as_entry answer (Some frame))) }
{
    if let Some(reason) = against_holding(custody, answer, frame, reference.number) {
        return Some(Reason::Seat(reason));
    }
    if let Some(reason) = against_page(store, custody, answer, frame, reference) {
        return Some(reason);
    }
    if is_word_or_done(&answer.reply) {
        return None;
    }
    let Answer {
        process,
        place,
        reply,
        ..
    } = answer;
    let at = CommandAt { process, place };
    Some(Reason::Command(CommandReason::Refused { at, reply }))
}

/// Why a reference may not be answered without a frame.
fn against_without(
    store: &FlatStore,
    answer: Answer,
    reference: &Reference,
) -> Option<CommandReason>
    ensures { (p : Plan) (s : Store) → Shows p store.now s → next_reference p s answer.process ≡ Some reference.now
        → MatchOption result (MayGoWithout s answer.process reference.now answer.reply)
        (λ r. IsCommandOf p s (as_entry answer None) r × CommandSays p s r) }
{
    let Answer { process, place, .. } = answer;
    if !is_word_or_done(&answer.reply) {
        return None;
    }
    let page = reference.offset / Page::WORDS;
    match store.known(process, reference.number) {
        Some(uid) if store.is_stored(uid, page) => Some(CommandReason::Stored {
            at: CommandAt { process, place },
            page: PageOf { uid, page },
        }),
        _ => None,
    }
}

/// Why a reference may not be answered so, through this frame or without one.
fn against_reference(
    store: &FlatStore,
    custody: &Custody,
    answer: Answer,
    frame: Option<u32>,
    reference: &Reference,
) -> Option<Reason>
    ensures { (p : Plan) (s : Store) → Shows p store.now s → next_reference p s answer.process ≡ Some reference.now
        → MatchOption result (MayAnswerReference s (custody_of custody.now) answer frame reference.now)
        (IsSo p s (custody_of custody.now) (as_entry answer frame)) }
{
    if let Some(reason) = against_running(custody, answer.cpu, answer.process) {
        return Some(Reason::Seat(reason));
    }
    match frame {
        Some(frame) => against_through(store, custody, answer, frame, reference),
        None => match against_without(store, answer, reference) {
            Some(reason) => Some(Reason::Command(reason)),
            None => None,
        },
    }
}

/// Why a tree command may not be answered so.
fn against_tree(
    script: &Script,
    store: &FlatStore,
    custody: &Custody,
    answer: Answer,
    frame: Option<u32>,
    command: &Command,
) -> Option<Reason>
    requires { AreTablesOf script.now custody.now }
    ensures { (s : Store) → Shows script.now store.now s → IsNextTree script.now s answer.process command.now
        → MatchOption result (MayAnswerTree script.now s (custody_of custody.now) answer frame command.now)
        (IsSo script.now s (custody_of custody.now) (as_entry answer frame)) }
{
    let Answer { process, place, .. } = answer;
    if frame.is_some() {
        let word = word_of(command);
        let at = CommandAt { process, place };
        return Some(Reason::Command(CommandReason::Tree { at, word }));
    }
    if let Some(reason) = against_running(custody, answer.cpu, process) {
        return Some(Reason::Seat(reason));
    }
    if !is_effective(script, store, process, command, &answer.reply) {
        return None;
    }
    match against_effect(script, store, custody, process, command) {
        Some(reason) => Some(Reason::Effect(reason)),
        None => None,
    }
}

/// Why a processor may not answer a process that has no command left.
fn against_no_command(custody: &Custody, answer: Answer) -> Reason
    ensures { (p : Plan) (s : Store) (f : Option ℕ) → next_command p s answer.process ≡ None
        → IsSo p s (custody_of custody.now) (as_entry answer f) result }
{
    let Answer { process, cpu, .. } = answer;
    match against_running(custody, cpu, process) {
        Some(reason) => Reason::Seat(reason),
        None => Reason::Command(CommandReason::NoneLeft { process }),
    }
}

/// Why a processor may not answer the next command of a process so, through this frame or without one.
fn against_next(
    script: &Script,
    store: &FlatStore,
    custody: &Custody,
    answer: Answer,
    frame: Option<u32>,
) -> Option<Reason>
    requires { AreTablesOf script.now custody.now }
    ensures { (s : Store) → Shows script.now store.now s
        → Tells script.now s (custody_of custody.now) (as_entry answer frame) result }
{
    let process = answer.process;
    let Some(command) = command_at(script, process, store.place(process)) else {
        return Some(against_no_command(custody, answer));
    };
    match command.reference() {
        Some(reference) => against_reference(store, custody, answer, frame, &reference),
        None => against_tree(script, store, custody, answer, frame, command),
    }
}

/// Why a processor may not answer a command of a process so, through this frame or without one.
pub(crate) fn against_do(
    script: &Script,
    store: &FlatStore,
    custody: &Custody,
    answer: Answer,
    frame: Option<u32>,
) -> Option<Reason>
    requires { AreTablesOf script.now custody.now }
    ensures { (s : Store) → Shows script.now store.now s
        → Tells script.now s (custody_of custody.now) (as_entry answer frame) result }
{
    let Answer { process, cpu, .. } = answer;
    if process >= script.processes() {
        return Some(Reason::Absent(Absent::Process { process }));
    }
    if cpu >= script.processors() {
        return Some(Reason::Absent(Absent::Processor { cpu }));
    }
    match frame {
        Some(frame) if frame >= script.frames() => Some(Reason::Absent(Absent::Frame { frame })),
        _ => against_next(script, store, custody, answer, frame),
    }
}
