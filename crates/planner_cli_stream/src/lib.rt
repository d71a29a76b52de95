//! The words of a statement: how a line is cut into words, and what `clap` reads of them. A [`Form`] says which options
//! a statement has. It accepts the words after the statement's name in any order, and returns their [`Values`], or
//! `None` where the words are not those of the form.
//!
//! The items of a job stream: a line that is no statement, a statement's line, or such a line with its data block.
//! They are read one at a time from a [`std::io::BufRead`], however it cuts its bytes.
//!
//! The statements of a job stream: which lines are statements, and what each of them says.
//!
//! ```text
//! // a line with a data block, which is read as an item, and the statement that the line is
//! let mut reader = b"define periods --job 7\nW,A,2024-01-01,7\n/*\n".as_slice();
//! let mut page = Page::new(alloc);
//! page.read_item(&mut reader)?;
//! let Some(Item::WithBlock(line, DataBlock::Whole(block))) = page.item() else {
//!     return Err(Fail::new("another item"));
//! };
//! assert_eq!(rt; block, b"W,A,2024-01-01,7\n".as_slice());
//! let Some(Statement::Define { kind, .. }) = read_statement(alloc, line)? else {
//!     return Err(Fail::new("another statement"));
//! };
//! assert_eq!(rt; kind, KindWord::Periods);
//! ```
#![tactic(auto)]

mod arguments;
mod blocks;
mod extension_days;
mod form;
mod items;
mod job_numbers;
mod law;
mod limits;
mod line;
mod line_kinds;
mod lines;
mod pages;
mod read;
mod readers;
mod reading;
mod statements;
mod values;
mod verbs;
mod word_law;
mod word_values;
mod words;

pub use blocks::LONGEST_BLOCK;
pub use form::Form;
pub use items::{DataBlock, Item};
pub use job_numbers::JobNumber;
pub use law::one_statement_per_line;
pub use limits::limits_hold;
pub use line::{first_word, is_line_text, joined_words, words_in};
pub use line_kinds::LONGEST_LINE;
pub use lines::ReadFault;
pub use pages::Page;
pub use read::read_statement;
pub use readers::StreamReader;
pub use statements::{ChangeStatement, DailyFunction, KeyAct, PlanFunction, Statement};
pub use verbs::Verb;
pub use word_law::reads_what_is_written;
pub use word_values::Values;
pub use words::{CountWord, FunctionWord, KindWord, WhatWord};
