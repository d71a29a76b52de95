//! What trials print before their last line.
ghost use Rattle.std.specs.Prelude.{◌≡◌, ◌++◌, ◌∷◌, [], ℕ, List, IfOk, OnOk, flat_map, map};
ghost use Rattle.std.specs.Str.{byte};
ghost use Rattle.plan_listings.specs.Report.{IsReport, IsSignedText, daily_sign, daily_signs, letter_text, plan_signs};
ghost use Rattle.plan_listings.specs.Line.{AreLinesOf, ended};

use crate::rows::row_line;
use occurrences::{Row, Status};
use std::alloc::{AllocError, Global};

/// A row of a trial, and what would come of it.
#[derive(Clone, Copy)]
pub struct Signed {
    /// The row, as it would be made, or as it is.
    pub row: Row,
    /// What would come of it.
    pub sign: u8,
    /// The letter of its status, where the trial shows one.
    pub letter: Option<u8>,
}

// Appends rows, each with the same sign before it.
fn push_rows(
    all: &mut Vec<Signed>,
    rows: &[Row],
    sign: u8,
    letter: Option<u8>,
) -> Result<(), AllocError>
    ensures { OnOk result (all.new.items ≡ all.old.items
        ++ map (λ row. record { row = row; sign = sign; letter = letter }) rows.now) }
{
    for row in rows {
        all.push(Signed {
            row: *row,
            sign,
            letter,
        })?;
    }
    Ok(())
}

// Adds rows that would be carried, each with its status.
fn push_carried(all: &mut Vec<Signed>, rows: &[(Row, Status)]) -> Result<(), AllocError>
    ensures { OnOk result (all.new.items ≡ all.old.items
        ++ map (λ c. daily_sign (byte "=") c.1 c.0) rows.now) }
{
    for carried in rows {
        let letter = Some(carried.1.letter());
        all.push(Signed {
            row: carried.0,
            sign: b'=',
            letter,
        })?;
    }
    Ok(())
}

// Appends a blank and the letter, if there is one.
fn append_letter(text: &mut Vec<u8>, letter: Option<u8>) -> Result<(), AllocError>
    ensures { OnOk result (text.new.items ≡ text.old.items ++ letter_text letter) }
{
    if let Some(letter) = letter {
        text.push(b' ')?;
        text.push(letter)?;
    }
    Ok(())
}

// Appends the line of a row, and a line feed.
fn append_signed(text: &mut Vec<u8>, shown: &Signed) -> Result<(), AllocError>
    ensures { OnOk result ((line : List ℕ) × IsSignedText shown.now line
        × (text.new.items ≡ text.old.items ++ ended line)) }
{
    text.push(shown.sign)?;
    text.push(b' ')?;
    text.extend_from_slice(&row_line(&shown.row))?;
    append_letter(text, shown.letter)?;
    text.push(b'\n')?;
    Ok(())
}

// The lines of the rows, in their order.
fn signed_lines(alloc: Global, rows: &[Signed]) -> Result<Vec<u8>, AllocError>
    ensures { IfOk result (λ text. (lines : List (List ℕ)) × AreLinesOf IsSignedText rows.now lines
        × (text.items ≡ flat_map ended lines)) }
{
    let mut text = Vec::new(alloc);
    for row in rows {
        append_signed(&mut text, row)?;
    }
    Ok(text)
}

// The report of these rows.
fn report(alloc: Global, mut rows: Vec<Signed>) -> Result<Vec<u8>, AllocError>
    ensures { IfOk result (λ text. IsReport rows.items text.items) }
{
    rows.sort_unstable_by_key(|x| x.row);
    signed_lines(alloc, rows.as_slice())
}

/// The rows of a trial of the long-term plan, each line with its line feed: `+ ` before those that would be made, and
/// `- ` before those that would be withdrawn, by input arrival, application and serial. Errs only if memory is
/// refused.
pub fn ltp_report(alloc: Global, made: &[Row], withdrawn: &[Row]) -> Result<Vec<u8>, AllocError>
    ensures { IfOk result (λ text. IsReport (plan_signs made.now withdrawn.now) text.items) }
{
    let mut rows = Vec::new(alloc);
    push_rows(&mut rows, made, b'+', None)?;
    push_rows(&mut rows, withdrawn, b'-', None)?;
    report(alloc, rows)
}

/// The rows of a trial of a daily plan, each line with its line feed: `> ` before those that would be moved (status
/// W), `= ` before those carried (their status), `H ` before those that would go to history (C), `X ` before those
/// that would go to the deletions (D), by input arrival, application and serial. Errs only if memory is refused.
pub fn dp_report(
    alloc: Global,
    moved: &[Row],
    carried: &[(Row, Status)],
    completed: &[Row],
    deleted: &[Row],
) -> Result<Vec<u8>, AllocError>
    ensures { IfOk result (λ text.
        IsReport (daily_signs moved.now carried.now completed.now deleted.now) text.items) }
{
    let mut rows = Vec::new(alloc);
    push_rows(&mut rows, moved, b'>', Some(Status::W.letter()))?;
    push_carried(&mut rows, carried)?;
    push_rows(&mut rows, completed, b'H', Some(Status::C.letter()))?;
    push_rows(&mut rows, deleted, b'X', Some(Status::D.letter()))?;
    report(alloc, rows)
}
