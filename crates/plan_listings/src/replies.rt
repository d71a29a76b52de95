ghost use Rattle.std.specs.Prelude.{◌≡◌, ◌++◌, ◌∷◌, [], IfOk, OnOk, codes};
ghost use Rattle.std.specs.Fmt.{decimal};
ghost use Rattle.occurrences.specs.Status.{status_letter};
ghost use Rattle.plan_listings.specs.Reply.{counted, reply_text, refusal_detail, refusal_text};

use itoa::Buffer;
use occurrences::{Refusal, Reply};
use std::alloc::{AllocError, Global};

// Appends a number in decimal digits.
fn append_number(line: &mut Vec<u8>, number: u64) -> Result<(), AllocError>
    ensures { OnOk result (line.new.items ≡ line.old.items ++ decimal number) }
{
    let mut digits = Buffer::new();
    line.extend_from_slice(digits.format(number).as_bytes())
}

// Appends a word, a blank and a number.
fn append_count(line: &mut Vec<u8>, word: &str, count: usize) -> Result<(), AllocError>
    ensures { OnOk result (line.new.items ≡ line.old.items ++ counted word.now count) }
{
    line.extend_from_slice(word.as_bytes())?;
    line.extend_from_slice(b" ")?;
    append_number(line, count as u64)
}

/// The line of an accepted statement, without its line feed. Errs only if memory is refused.
pub fn reply_line(alloc: Global, reply: &Reply) -> Result<Vec<u8>, AllocError>
    ensures { IfOk result (λ line. line.items ≡ reply_text reply.now) }
{
    let mut line = Vec::new(alloc);
    match reply {
        Reply::Defined { names } => append_count(&mut line, "ok defined", *names)?,
        Reply::Undefined => line.extend_from_slice(b"ok undefined")?,
        Reply::Made { made, withdrawn } => {
            append_count(&mut line, "ok made", *made)?;
            append_count(&mut line, " withdrawn", *withdrawn)?;
        }
        Reply::Numbered { serial } => append_count(&mut line, "ok serial", *serial as usize)?,
        Reply::Changed { serial, status } => {
            append_count(&mut line, "ok serial", *serial as usize)?;
            line.extend_from_slice(b" status ")?;
            line.push(status.letter())?;
        }
        Reply::Moved {
            moved,
            carried,
            completed,
            deleted,
        } => {
            append_count(&mut line, "ok moved", *moved)?;
            append_count(&mut line, " carried", *carried)?;
            append_count(&mut line, " completed", *completed)?;
            append_count(&mut line, " deleted", *deleted)?;
        }
        Reply::Rows { rows } => append_count(&mut line, "ok rows", *rows)?,
    }
    Ok(line)
}

// Appends what a refusal shows after its number.
fn append_detail(line: &mut Vec<u8>, refusal: &Refusal) -> Result<(), AllocError>
    ensures { OnOk result (line.new.items ≡ line.old.items ++ refusal_detail refusal.now) }
{
    match refusal {
        Refusal::FaultyData { record } => append_count(line, "", *record),
        Refusal::CalendarUndefined { app }
        | Refusal::PeriodUndefined { app }
        | Refusal::Loop { app } => {
            line.extend_from_slice(b" ")?;
            line.extend_from_slice(app.as_bytes())
        }
        Refusal::PredecessorUncompleted { serial } => append_count(line, "", *serial as usize),
        Refusal::NotAStatement
        | Refusal::JobWithAnotherText
        | Refusal::NotDefined
        | Refusal::NoPlan
        | Refusal::PlanExists
        | Refusal::DatesOutOfRange
        | Refusal::NoActiveApplication
        | Refusal::KeyIsLive
        | Refusal::NoSuchOccurrence
        | Refusal::StatusForbids
        | Refusal::TooManyRows
        | Refusal::PlanEndOutOfRange => Ok(()),
    }
}

/// The line of a refused statement, without its line feed. Errs only if memory is refused.
pub fn refusal_line(alloc: Global, refusal: &Refusal) -> Result<Vec<u8>, AllocError>
    ensures { IfOk result (λ line. line.items ≡ refusal_text refusal.now) }
{
    let mut line = Vec::new(alloc);
    append_count(&mut line, "refused", refusal.number() as usize)?;
    append_detail(&mut line, refusal)?;
    Ok(line)
}
