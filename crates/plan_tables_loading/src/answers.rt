// The reply lines of jobs.

ghost use Rattle.std.specs.Prelude.{◌≡◌, ◌↔◌, ◌<◌, ◌^◌, ◌∷◌, [], ℕ, None, Some, Result, Ok, IfOk, IfSome, IsTrue};
ghost use Rattle.std.specs.Fmt.{decimal};
ghost use Rattle.occurrences.specs.Status.{status_letter};
ghost use Rattle.occurrences.specs.declared.refusal.Refusal.{Refusal as RefusalValue};
ghost use Rattle.occurrences.specs.declared.reply.Reply.{Reply as ReplyValue};
ghost use Rattle.occurrences.specs.declared.status.Status.{Status as StatusValue};
ghost use Rattle.planner_machine.specs.Sound.{IsKeptReply, IsShown};
ghost use Rattle.plan_tables_content.specs.Content.{answer_text};
ghost use Rattle.plan_tables_loading.specs.Lines.{IsChosen, IsMade, IsMoved, IsOccurrence, back, behind_two, front};

use occurrences::{Refusal, Reply, Status};
use plan_tables_content::answer_line;
use planner_machine::Answer;
use std::alloc::{AllocError, Global};
use work_calendars::App;

// The text up to its first blank, and after it: all of it and nothing, if it has none.
fn split(text: &str) -> (&str, &str)
    ensures front { result.0.now ≡ front text.now }
    ensures back { result.1.now ≡ back text.now }
{
    match text.split_once(' ') {
        Some((word, rest)) => (word, rest),
        None => (text, ""),
    }
}

// What follows the first two words.
fn behind_two(text: &str) -> &str
    ensures { result.now ≡ behind_two text.now }
{
    let (_, text) = split(text);
    let (_, text) = split(text);
    text
}

// The number with which the text begins; 0 where it begins with none.
fn count_in(text: &str) -> usize
    ensures { (n : ℕ) → n < 2 ^ 64 → front text.now ≡ decimal n → result ≡ n }
{
    let (word, _) = split(text);
    word.parse::<usize>().unwrap_or(0)
}

// The number of a serial with which the text begins.
fn serial_in(text: &str) -> Option<u32>
    ensures { (n : ℕ) → IsShown n → front text.now ≡ decimal n → result ≡ Some n }
{
    u32::try_from(count_in(text)).ok()
}

// The status that the text names.
fn status_in(text: &str) -> Option<Status>
    ensures some { (s : StatusValue) → text.now ≡ status_letter s ∷ [] → result ≡ Some s }
    ensures none { text.now ≡ [] → result ≡ None }
{
    match text.as_bytes() {
        [letter] => Status::from_letter(*letter),
        _ => None,
    }
}

// The numbers of occurrences made and withdrawn.
fn made_in(text: &str) -> Option<Answer>
    ensures { IsMade text.now result }
{
    Some(Ok(Reply::Made {
        made: count_in(text),
        withdrawn: count_in(behind_two(text)),
    }))
}

// The numbers of occurrences moved, carried, completed and deleted.
fn moved_in(text: &str) -> Option<Answer>
    ensures { IsMoved text.now result }
{
    let carried = behind_two(text);
    let completed = behind_two(carried);
    let deleted = behind_two(completed);
    Some(Ok(Reply::Moved {
        moved: count_in(text),
        carried: count_in(carried),
        completed: count_in(completed),
        deleted: count_in(deleted),
    }))
}

// The serial of an occurrence, and the status that may follow it.
fn occurrence_in(text: &str) -> Option<Answer>
    ensures { IsOccurrence text.now result }
{
    let serial = serial_in(text)?;
    match status_in(behind_two(text)) {
        Some(status) => Some(Ok(Reply::Changed { serial, status })),
        None => Some(Ok(Reply::Numbered { serial })),
    }
}

// Whether this is the line of the reply.
fn is_line(alloc: Global, answer: &Answer, line: &[u8]) -> Result<bool, AllocError>
    ensures { IfOk result (λ b. IsTrue b ↔ (answer_text answer.now ≡ line.now)) }
{
    let written = answer_line(alloc, answer)?;
    Ok(written.as_slice() == line)
}

// The reply, if this is its line.
fn if_line(alloc: Global, answer: Answer, line: &str) -> Result<Option<Answer>, AllocError>
    ensures value { IfOk result (λ found. IfSome found (λ same. answer_text same ≡ line.now)) }
    ensures none { IfOk result (λ found. found ≡ None → answer_text answer ≡ line.now → ⊥) }
{
    if is_line(alloc, &answer, line.as_bytes())? {
        Ok(Some(answer))
    } else {
        Ok(None)
    }
}

// The answer whose line has this second word, and this text after it, if a kept job can have it.
fn answer_in(word: &str, text: &str) -> Option<Answer>
    ensures { IsChosen word.now text.now result }
{
    match word {
        "defined" => Some(Ok(Reply::Defined {
            names: count_in(text),
        })),
        "undefined" => Some(Ok(Reply::Undefined)),
        "made" => made_in(text),
        "serial" => occurrence_in(text),
        "moved" => moved_in(text),
        "13" => Some(Err(Refusal::NotDefined)),
        "20" => Some(Err(Refusal::NoPlan)),
        "21" => Some(Err(Refusal::PlanExists)),
        "22" => Some(Err(Refusal::CalendarUndefined {
            app: App::from_text(text)?,
        })),
        "23" => Some(Err(Refusal::PeriodUndefined {
            app: App::from_text(text)?,
        })),
        "24" => Some(Err(Refusal::DatesOutOfRange)),
        "25" => Some(Err(Refusal::Loop {
            app: App::from_text(text)?,
        })),
        "26" => Some(Err(Refusal::NoActiveApplication)),
        "27" => Some(Err(Refusal::KeyIsLive)),
        "28" => Some(Err(Refusal::NoSuchOccurrence)),
        "29" => Some(Err(Refusal::StatusForbids)),
        "30" => Some(Err(Refusal::PredecessorUncompleted {
            serial: serial_in(text)?,
        })),
        "31" => Some(Err(Refusal::TooManyRows)),
        "32" => Some(Err(Refusal::PlanEndOutOfRange)),
        _ => None,
    }
}

/// The reply whose line this is, if a kept job can have it.
pub(crate) fn decode_answer(alloc: Global, line: &str) -> Result<Option<Answer>, AllocError>
    ensures value { IfOk result (λ found. IfSome found (λ answer. answer_text answer ≡ line.now)) }
    ensures none { IfOk result (λ found. found ≡ None → (answer : Result ReplyValue RefusalValue)
        → IsKeptReply answer
        → answer_text answer ≡ line.now → ⊥) }
{
    let (_, words) = split(line);
    let (word, text) = split(words);
    match answer_in(word, text) {
        Some(answer) => if_line(alloc, answer, line),
        None => Ok(None),
    }
}
