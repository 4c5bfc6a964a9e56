//! What the lines of a case ask.

use crate::steps::booting::Stuck;

/// When steps end.
#[derive(Clone, Copy)]
pub(crate) enum Until<'a> {
    /// After one step.
    Once,
    /// The last entry begins with this text, or the last answer is this.
    Seen(&'a str),
}

/// What a line of a case asks.
#[derive(Clone, Copy)]
pub(crate) enum Instruction<'a> {
    /// `step C until TEXT`, or `step C` for one step, whose answer is printed too. After `step C with E` processor E
    /// makes one step each time C waits for what E is to drop.
    Step {
        /// The processor.
        processor: u32,
        /// The one that helps it.
        other: Option<u32>,
        /// When it ends.
        until: Until<'a>,
    },
    /// `only WORDS`: from here on only entries whose first word is one of these are printed, and none after
    /// `only nothing`.
    Only(&'a str),
    /// `count TEXT`: how many entries of the book are this.
    Count(&'a str),
    /// `replies`: what each process was answered, in its order.
    Replies,
    /// `rounds`: each processor makes a step in turn, until all processes have ended.
    Rounds,
    /// `finish`: the machine is brought to its end by its own loop.
    Finish,
    /// `shutdown`: the shutdown visits each frame.
    Shutdown,
    /// `calls`: how many reads and writes the drive of each volume was asked for.
    Calls,
    /// `schedule N times C`: N steps of processor C, and whether any of them moved.
    Schedule(u32, u32),
    /// `judge`: whether both judges allow each entry of the book.
    Judge,
    /// `stop`: the machine is stopped.
    Stop,
    /// `lists N`: as many machines make steps of processors drawn by chance, and each book is judged.
    Lists(u32),
    /// `workers N`: as many machines make their steps with a worker thread for each processor, to the end of their
    /// processes, and each book is judged.
    Workers(u32),
}

/// A number of a text.
fn number(text: &str) -> Result<u32, Stuck> {
    text.trim().parse().map_err(|_| Stuck)
}

impl<'a> Instruction<'a> {
    /// What a line asks after `step`.
    fn step(rest: &'a str) -> Result<Instruction<'a>, Stuck> {
        let (who, until) = match rest.split_once(" until ") {
            Some((who, text)) => (who, Until::Seen(text)),
            None => (rest, Until::Once),
        };
        let (processor_text, other) = match who.split_once(" with ") {
            Some((one, other)) => (one, Some(number(other)?)),
            None => (who, None),
        };
        let processor = number(processor_text)?;
        Ok(Instruction::Step {
            processor,
            other,
            until,
        })
    }

    /// What a line asks after `schedule`.
    fn schedule(rest: &'a str) -> Result<Instruction<'a>, Stuck> {
        let (times, processor) = rest.split_once(" times ").ok_or(Stuck)?;
        Ok(Instruction::Schedule(number(times)?, number(processor)?))
    }

    /// What a line asks.
    pub(crate) fn by(line: &'a str) -> Result<Instruction<'a>, Stuck> {
        let (word, rest) = line.split_once(' ').unwrap_or((line, ""));
        match word {
            "step" => Instruction::step(rest),
            "only" => Ok(Instruction::Only(rest)),
            "count" => Ok(Instruction::Count(rest)),
            "replies" => Ok(Instruction::Replies),
            "rounds" => Ok(Instruction::Rounds),
            "finish" => Ok(Instruction::Finish),
            "shutdown" => Ok(Instruction::Shutdown),
            "calls" => Ok(Instruction::Calls),
            "schedule" => Instruction::schedule(rest),
            "judge" => Ok(Instruction::Judge),
            "stop" => Ok(Instruction::Stop),
            "lists" => Ok(Instruction::Lists(number(rest)?)),
            "workers" => Ok(Instruction::Workers(number(rest)?)),
            _ => Err(Stuck),
        }
    }
}
