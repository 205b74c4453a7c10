// What was encoded and what was played, on paper.
ghost use Rattle.std.specs.Prelude.{◌≡◌, Some};
ghost use Rattle.outside.specs.FourRuns.{refusal_of};
ghost use Rattle.outside.specs.EventTexts.{call_text, refused_text, read_text, event_text};

use kimzhadyr::card::Word;
use kimzhadyr::tag::Event;
use std::fmt;

// A call of a run with its answer, on one line.
#[derive(Clone, Copy)]
pub struct EventLine<'a> {
    pub event: Event<'a>,
}

impl<'a> fmt::Display for EventLine<'a> {
    ghost output = { λ l. Some (event_text l.event) };

    fn fmt<W: fmt::Write>(&self, f: &mut fmt::Formatter<W>) -> fmt::Result {
        let event = self.event;
        let call = CallMade { event };
        let refused = Refused {
            number: refusal_number(event),
        };
        let read = ReadShown { event };
        write!(f, "{call}{refused}{read}")
    }
}

// The call alone.
#[derive(Clone, Copy)]
struct CallMade<'a> {
    event: Event<'a>,
}

impl<'a> fmt::Display for CallMade<'a> {
    ghost output = { λ c. Some (call_text c.event) };

    fn fmt<W: fmt::Write>(&self, f: &mut fmt::Formatter<W>) -> fmt::Result {
        match self.event {
            Event::Note { cell, letter, .. } => write!(f, "  note {cell} {letter}"),
            Event::Wipe { cell, .. } => write!(f, "  wipe {cell}"),
            Event::Line { text, .. } => write!(f, "  line {text}"),
            Event::Read { shown, .. } => {
                let length = shown.len();
                write!(f, "  read {length}")
            }
        }
    }
}

// The number of a refusal, where there is one.
#[derive(Clone, Copy)]
struct Refused {
    number: Option<u32>,
}

impl fmt::Display for Refused {
    ghost output = { λ r. Some (refused_text r.number) };

    fn fmt<W: fmt::Write>(&self, f: &mut fmt::Formatter<W>) -> fmt::Result {
        match self.number {
            Some(number) => write!(f, ": refused {number}"),
            None => Ok(()),
        }
    }
}

// What a granted read showed.
#[derive(Clone, Copy)]
struct ReadShown<'a> {
    event: Event<'a>,
}

impl<'a> fmt::Display for ReadShown<'a> {
    ghost output = { λ r. Some (read_text r.event) };

    fn fmt<W: fmt::Write>(&self, f: &mut fmt::Formatter<W>) -> fmt::Result {
        let event = self.event;
        if let Event::Read {
            answer: Ok(counts),
            shown,
        } = event
        {
            let wrong = counts.wrong;
            let blank = counts.blank;
            let word = Word { letters: shown };
            write!(f, ": {wrong} wrong, {blank} blank,{word}")?;
        }
        Ok(())
    }
}

// The number that the call was refused with.
fn refusal_number(event: Event<'_>) -> Option<u32>
    ensures { result ≡ refusal_of event.entry }
{
    match event {
        Event::Note {
            answer: Err(refusal),
            ..
        } => Some(refusal.number()),
        Event::Wipe {
            answer: Err(refusal),
            ..
        } => Some(refusal.number()),
        Event::Line {
            answer: Err(refusal),
            ..
        } => Some(refusal.number()),
        Event::Read {
            answer: Err(refusal),
            ..
        } => Some(refusal.number()),
        _ => None,
    }
}
