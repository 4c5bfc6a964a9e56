ghost use Rattle.std.specs.Prelude.{◌≡◌, ◌<◌, ◌+◌, ◌≤◌, ◌↔◌, ◌⊎◌, ℕ, Some, None, Ok, Err, length};
ghost use Rattle.std.specs.Prelude.{IfSome, IsSomeAnd};
ghost use Rattle.site_io.specs.Faults.{Rose};
ghost use Rattle.site_io.specs.Streams.{ConsumesFront};
ghost use Rattle.script.specs.Plans.{Plan};
ghost use Rattle.script.specs.Grammar.{script_of};
ghost use Rattle.script.specs.declared.refusals.Refusal.{Refusal};
ghost use Rattle.flat_model.specs.Legal.{IsLegal, IsComplete, IsSettled, store_after};
ghost use Rattle.custody_model.specs.Clean.{IsClean};
ghost use Rattle.machine.specs.Shut.{AreToldBack};
ghost use Rattle.listing.specs.Listings.{listing_of};
ghost use Rattle.drill.specs.Texts.{drill_text};
ghost use Rattle.make_work.specs.Day.{made};
ghost use Rattle.runner.specs.Drives.{AreDrivesOf, TellsFaults};
ghost use Rattle.runner.specs.Endings.{change, Ends, HasPrinted, IsReading, IsRefused, IsStatusOf, MayHaveRun};
ghost use Rattle.runner.specs.Endings.{Printed, Says, limit_of};
ghost use Rattle.book_check.specs.Closing.{IsTheVerdict};
ghost use Rattle.book_check.specs.Verdicts.{IsVerdict};
ghost use Rattle.book_check.specs.declared.offences.CheckFault.{CheckFault};
ghost use Rattle.book_check.specs.declared.offences.CheckFault.TheVariants as fault;
ghost use Rattle.book_check.specs.declared.offences.Offence.{Offence};
ghost use Rattle.runner.specs.Runs.{HoldsStore};
ghost use Rattle.runner.specs.Texts.{accepted_text};
ghost use Rattle.runner.specs.Words.{form_of, IsInRange};
ghost use Rattle.runner.specs.declared.words.Form.TheVariants as form;

use crate::checking::read_and_check;
use crate::finished::{Finished, Status};
use crate::printing::{make, run_drill, with_text};
use crate::reading::read_and_run;
use crate::words::{Form, Words};
use site_io::{Gate, Sink, Source};
use std::alloc::Global;
use std::sync::Wait;
use std::thread::Threads;

/// What the program writes where its words are no form of it.
const USAGE: &[u8] = b"usage: multics run | check | make N | drill P F N SEED\n";

/// Does what is asked for.
fn serve<R: Threads + Wait + Sync, S: Source, K: Sink, G: Gate + Sync>(
    rt: &R,
    alloc: Global,
    asked: Form,
    src: &mut S,
    out: &mut K,
    gate: &G,
) -> Finished
    requires { IsInRange asked }
    ensures ends { Ends (Some asked) (change (S.left src.old) (S.left src.new) (S.faults src.old) (S.faults src.new))
        (change (K.held out.old) (K.held out.new) (K.faults out.old) (K.faults out.new)) result }
    ensures source { (IsReading (Some asked) → ⊥) → src.new ≡ src.old }
{
    match asked {
        Form::Run => read_and_run(rt, alloc, src, out, gate),
        Form::Check => read_and_check(alloc, src, out),
        Form::Make(n) => make(alloc, n, out),
        Form::Drill {
            processors,
            frames,
            adds,
            seed,
        } => run_drill(rt, alloc, (processors, frames, adds, seed), out, gate),
    }
}

/// Does what the words ask for, or says how they may be.
fn answer<R: Threads + Wait + Sync, S: Source, K: Sink, G: Gate + Sync>(
    rt: &R,
    alloc: Global,
    words: Words,
    src: &mut S,
    out: &mut K,
    gate: &G,
) -> Finished
    ensures ends { Ends (form_of words) (change (S.left src.old) (S.left src.new) (S.faults src.old) (S.faults src.new))
        (change (K.held out.old) (K.held out.new) (K.faults out.old) (K.faults out.new)) result }
    ensures source { (IsReading (form_of words) → ⊥) → src.new ≡ src.old }
{
    match words.form() {
        None => with_text(out, USAGE, Status::Usage),
        Some(form) => serve(rt, alloc, form, src, out, gate),
    }
}

/// Runs the program: `run` reads a script from the source to its end, runs it, and writes its listing; `check` reads a
/// script with anybody's listing of it, and writes how many entries it accepts, or the first line at fault; `make N`
/// writes the script of the day of a number, and `drill` lets threads add to pages; neither reads anything.
///
/// The causes are looked at in this order: the words (`Usage`), a read that fails (`ReadFault`), a source that is too
/// long (`TooLong`), a script that is refused (`Script`), a listing at fault (`Refused`, of `check`), a write that
/// fails (`WriteFault`). Want of memory (`Memory`) may stand in place of any but the first, and nothing was written
/// then.
///
/// A run boots the machine of the script, and starts a worker thread for each of its processors. One hold of the lock
/// round the machine is one step; between two holds a worker calls the gate, with no lock held. After the workers have
/// returned the machine is finished and shut down, and its listing is written. Whatever the script, and however the
/// processors interleave, the book of such a run holds each process's commands once and in order, every reply is the
/// flat store's at its place in the book, in each account the used count is the number of its stored pages, and no
/// reference uses a descriptor or a page entry after it was taken away. That the call returns isn't claimed: threads
/// wait for each other. (Source: Bensoussan, Clingen and Daley 1972; the program is own.)
pub fn multics<R: Threads + Wait + Sync, S: Source, K: Sink, G: Gate + Sync>(
    rt: &R,
    alloc: Global,
    words: Words,
    src: &mut S,
    out: &mut K,
    gate: &G,
) -> Finished
    // How the call ended, and why; what it wrote, and what it left. Each clause below but `source` is a reading of it.
    ensures ends { Ends (form_of words) (change (S.left src.old) (S.left src.new) (S.faults src.old) (S.faults src.new))
        (change (K.held out.old) (K.held out.new) (K.faults out.old) (K.faults out.new)) result }

    // But for `run` and `check` the source is as it was. Else at most one byte past the limit is read.
    ensures source { (IsReading (form_of words) → ⊥) → src.new ≡ src.old }
    ensures reads { ConsumesFront (S.left src.old) (S.left src.new) (limit_of (form_of words) + 1) }

    // Why it ended so: the words are no form of the program; a read failed; there are more bytes than a script may
    // have, or a script with its listing; the script is refused, at its first line that is and for that line's first
    // cause; or a line of the listing is the first at fault, and breaks that rule first.
    ensures usage { (result.status ≡ Status.Usage) ↔ (form_of words ≡ None) }
    ensures read_fault { result.status ≡ Status.ReadFault →
        IsReading (form_of words) × Rose (S.faults src.old) (S.faults src.new) }
    ensures too_long { result.status ≡ Status.TooLong →
        IsReading (form_of words) × IfSome (S.left src.old) (λ bytes. limit_of (form_of words) < length bytes) }
    ensures refused { (r : Refusal) → result.status ≡ Status.Script r →
        IsReading (form_of words) × IfSome (S.left src.old) (λ bytes. IsRefused (form_of words) bytes r) }
    ensures offence { (o : Offence) → result.status ≡ Status.Refused o →
        (form_of words ≡ Some form.Check)
        × IfSome (S.left src.old) (λ bytes. IsTheVerdict bytes (Err (fault.Refused o))) }

    // What was written where no output was: the status's text, or nothing.
    ensures text { Says result.status (change (K.held out.old) (K.held out.new) (K.faults out.old) (K.faults out.new)) }

    // The machine of a run, however it ended: the book's script is that of the source's bytes; its entries are lawful
    // in the flat store, and allowed by who holds what. Its drives are those of the script's volumes, and the book
    // tells no more of their failures than there were. Under Done and WriteFault of `run` there is one; under Memory
    // there is one if it was booted, as `run_machine` says.
    ensures script { IfSome result.machine (λ m. IfSome (S.left src.old) (λ bytes. script_of bytes ≡ Ok m.state.plan)) }
    ensures legal { IfSome result.machine (λ m. IsLegal m.state.plan m.state.entries) }
    ensures clean { IfSome result.machine (λ m. IsClean m.state.plan m.state.entries) }
    ensures drives { IfSome result.machine (λ m. AreDrivesOf m.state.plan m.drives) }
    ensures faults { IfSome result.machine (λ m. TellsFaults m.state.plan m.state.entries m.drives) }
    ensures booted { IfSome result.machine (λ m. MayHaveRun result.status) }
    ensures no_machine { (form_of words ≡ Some form.Run → ⊥) → result.machine ≡ None }

    // Where its listing was written, or a write of it failed, all commands of each process were answered, once and in
    // order; quotas are conserved, no account is over its quota, and no stored page is all zeros; the volumes hold the
    // flat store after the book, but for the words of pages in frames; and a page is in a frame only where the book
    // tells that a drive failed, and right after it that the page is back.
    ensures complete { form_of words ≡ Some form.Run → HasPrinted result.status →
        IsSomeAnd result.machine (λ m. IsComplete m.state.plan m.state.entries) }
    ensures settled { form_of words ≡ Some form.Run → HasPrinted result.status →
        IsSomeAnd result.machine (λ m. IsSettled m.state.plan (store_after m.state.plan m.state.entries)) }
    ensures disk { form_of words ≡ Some form.Run → HasPrinted result.status → IsSomeAnd result.machine HoldsStore }
    ensures stayed { form_of words ≡ Some form.Run → HasPrinted result.status →
        IsSomeAnd result.machine (λ m. AreToldBack m.state.plan m.state.entries) }

    // What is printed: whole; a front of it, where a write failed; or nothing, for want of memory.
    ensures listing { form_of words ≡ Some form.Run → HasPrinted result.status →
        IsSomeAnd result.machine (λ m. Printed result.status
        (change (K.held out.old) (K.held out.new) (K.faults out.old) (K.faults out.new))
        (listing_of m.state.plan m.state.entries)) }
    ensures accepted { form_of words ≡ Some form.Check → HasPrinted result.status → (entries : ℕ)
        × IfSome (S.left src.old) (λ bytes. (length bytes ≤ 134217728) × IsTheVerdict bytes (Ok entries))
        × Printed result.status (change (K.held out.old) (K.held out.new) (K.faults out.old) (K.faults out.new))
        (accepted_text entries) }
    ensures made { (n : ℕ) → form_of words ≡ Some (form.Make n) →
        Printed result.status (change (K.held out.old) (K.held out.new) (K.faults out.old) (K.faults out.new))
        (made n) }
    ensures drilled { (p f n seed : ℕ) → form_of words ≡ Some (form.Drill p f n seed) →
        Printed result.status (change (K.held out.old) (K.held out.new) (K.faults out.old) (K.faults out.new))
        (drill_text p f n seed) }

    // Where no read fails, each ending of `run` and of `check` comes where its cause is there, unless memory runs out.
    ensures finds_too_long { form_of words ≡ Some form.Run → (Rose (S.faults src.old) (S.faults src.new) → ⊥) →
        IfSome (S.left src.old) (λ bytes. 4194304 < length bytes →
        (result.status ≡ Status.TooLong) ⊎ (result.status ≡ Status.Memory)) }
    ensures finds_refused { form_of words ≡ Some form.Run → (Rose (S.faults src.old) (S.faults src.new) → ⊥) →
        IfSome (S.left src.old) (λ bytes. (r : Refusal) → length bytes ≤ 4194304 → script_of bytes ≡ Err r →
        (result.status ≡ Status.Script r) ⊎ (result.status ≡ Status.Memory)) }
    ensures completes { form_of words ≡ Some form.Run → (Rose (S.faults src.old) (S.faults src.new) → ⊥) →
        (Rose (K.faults out.old) (K.faults out.new) → ⊥) →
        IfSome (S.left src.old) (λ bytes. (p : Plan) → length bytes ≤ 4194304 → script_of bytes ≡ Ok p →
        (result.status ≡ Status.Done) ⊎ (result.status ≡ Status.Memory)) }
    ensures finds_long_listing { form_of words ≡ Some form.Check → (Rose (S.faults src.old) (S.faults src.new) → ⊥) →
        IfSome (S.left src.old) (λ bytes. 134217728 < length bytes →
        (result.status ≡ Status.TooLong) ⊎ (result.status ≡ Status.Memory)) }
    ensures finds_fault { form_of words ≡ Some form.Check → (Rose (S.faults src.old) (S.faults src.new) → ⊥) →
        IfSome (S.left src.old) (λ bytes. (f : CheckFault) → length bytes ≤ 134217728 → IsVerdict bytes (Err f) →
        IsStatusOf f result.status ⊎ (result.status ≡ Status.Memory)) }
    ensures accepts { form_of words ≡ Some form.Check → (Rose (S.faults src.old) (S.faults src.new) → ⊥) →
        (Rose (K.faults out.old) (K.faults out.new) → ⊥) →
        IfSome (S.left src.old) (λ bytes. (entries : ℕ) → length bytes ≤ 134217728 → IsVerdict bytes (Ok entries) →
        (result.status ≡ Status.Done) ⊎ (result.status ≡ Status.Memory)) }
{
    answer(rt, alloc, words, src, out, gate)
}
