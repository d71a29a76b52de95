//! Whether a content is that of a run over lists, part by part.
use crate::definitions::unlike_definitions;
use external_dependencies::Links;
use plan_store::{Content, ListStore};
use planner_cli::run;
use std::alloc::{AllocError, Global};

/// Whether the jobs are the same.
fn are_same_jobs(kept: &Content, wanted: &Content) -> bool {
    kept.jobs.len() == wanted.jobs.len()
        && kept.jobs.iter().zip(wanted.jobs.iter()).all(|(a, b)| {
            a.number == b.number && a.text.as_slice() == b.text.as_slice() && a.reply == b.reply
        })
}

/// Whether the lists are the same, with their limits, which `==` doesn't look at.
fn are_same_links(kept: &Links, wanted: &Links) -> bool {
    kept.as_slice().len() == wanted.as_slice().len()
        && kept.as_slice().iter().all(|link| wanted.contains(link))
}

/// The first part of the content, apart from the definitions, that is not as it should be.
fn unlike_plans(
    alloc: Global,
    kept: &Content,
    wanted: &Content,
) -> Result<Option<&'static str>, AllocError> {
    let pairs = kept.pairs.to_vec(alloc)?;
    let wanted_pairs = wanted.pairs.to_vec(alloc)?;
    let ltp = kept.ltp.to_vec(alloc)?;
    let wanted_ltp = wanted.ltp.to_vec(alloc)?;
    let cp = kept.cp.to_vec(alloc)?;
    let wanted_cp = wanted.cp.to_vec(alloc)?;
    let history = kept.history.to_vec(alloc)?;
    let wanted_history = wanted.history.to_vec(alloc)?;
    let deletions = kept.deletions.to_vec(alloc)?;
    let wanted_deletions = wanted.deletions.to_vec(alloc)?;
    let in_force = kept.in_force.to_links(alloc)?;
    let wanted_in_force = wanted.in_force.to_links(alloc)?;
    let parts = [
        ("bounds", kept.bounds == wanted.bounds),
        ("serials issued", kept.issued == wanted.issued),
        (
            "lists in force",
            are_same_links(&in_force, &wanted_in_force),
        ),
        ("long-term plan", ltp.as_slice() == wanted_ltp.as_slice()),
        ("current plan", cp.as_slice() == wanted_cp.as_slice()),
        ("history", history.as_slice() == wanted_history.as_slice()),
        (
            "deletions",
            deletions.as_slice() == wanted_deletions.as_slice(),
        ),
        ("pairs", pairs.as_slice() == wanted_pairs.as_slice()),
        ("jobs", are_same_jobs(kept, wanted)),
    ];
    Ok(parts.iter().find(|part| !part.1).map(|part| part.0))
}

/// Nothing where both contents are the same, else the first part of them that isn't.
fn is_same(alloc: Global, kept: &Content, wanted: &Content) -> Result<(), &'static str> {
    match unlike_plans(alloc, kept, wanted) {
        Ok(None) => {}
        Ok(Some(part)) => return Err(part),
        Err(_) => return Err("memory"),
    }
    match unlike_definitions(alloc, &kept.definitions, &wanted.definitions) {
        Ok(None) => Ok(()),
        Ok(Some(part)) => Err(part),
        Err(_) => Err("memory"),
    }
}

/// The lists that a run of the whole stream leaves.
fn lists_after(alloc: Global, text: &[u8]) -> ListStore {
    let mut lists = ListStore::new(alloc);
    let mut left = text;
    let _ = run(alloc, &mut lists, &mut left, &mut Vec::new(alloc));
    lists
}

/// Nothing where the content is the one that a run of the whole stream over lists leaves, else the first part of it that
/// isn't, or `memory` where that was refused.
pub fn has_run(alloc: Global, content: &Content, text: &[u8]) -> Result<(), &'static str> {
    let lists = lists_after(alloc, text);
    is_same(alloc, content, lists.content())
}
