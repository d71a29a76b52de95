// What moves in the tables of occurrences, pairs and links.

ghost use Rattle.std.specs.Prelude.{◌≡◌, IfOk, Some, ⊤};
ghost use Rattle.plan_tables_writing.specs.Accepted.{AreKeysOf, AcceptsLinks, AcceptsMoves, AcceptsPairs};
ghost use Rattle.plan_tables_writing.specs.Accepted.{AcceptsNewLinks, AcceptsRows, WritesAccepted};
ghost use Rattle.plan_tables_writing.specs.Writing.{AreStorable, StandAlone, moved_in, rows_moved, pairs_moved};
ghost use Rattle.external_dependencies.specs.Link.{link_cmp};
ghost use Rattle.external_dependencies.specs.Rising.{IsRising};
ghost use Rattle.plan_store_lists.specs.Blocks.{items_of};
ghost use Rattle.plan_store_lists.specs.LinkBlocks.{with_list};
ghost use Rattle.plan_store_lists.specs.PairBlocks.{ArePairBlocks};
ghost use Rattle.plan_store.specs.Changes.{is_among};
ghost use Rattle.plan_tables_writing.specs.Writing.{beside, holds_link, links_moved, links_replaced, standing};

use crate::loops::{delete_each, put_each};
use crate::many::{ManyFact, put_many};
use crate::steps::{DeleteEach, PutEach, Step};
use external_dependencies::{Link, Pair, PairChange};
use plan_store::{Change, Moves, NewLists};
use plan_store_lists::{AppList, Blocks, LinkBlocks, has_item};
use plan_tables_schema::Table;
use sqlite::{Alter, Error, Transaction};
use std::alloc::{AllocError, Global};

// Makes the moves in the table of a set.
fn write_moves<R: ManyFact, S: Alter>(
    tx: &mut Transaction<'_, S>,
    table: Table,
    moves: &Moves<R>,
) -> Result<(), Error>
    ensures { WritesAccepted (λ _. AreStorable table R.values × StandAlone table)
        (λ all. (AreKeysOf table R.key × StandAlone table)
        × AcceptsMoves table R.values R.key moves.now all)
        S.Store tx.old tx.new result
        (moved_in table R.values R.key moves.now) }
{
    let gone = DeleteEach {
        table,
        facts: &moves.gone,
    };
    let old = DeleteEach {
        table,
        facts: &moves.changed,
    };
    let new = PutEach {
        table,
        facts: &moves.changed,
    };
    let put = PutEach {
        table,
        facts: &moves.put,
    };
    (((gone, old), new), put).run(tx)
}

/// Makes the moves of a change in the four tables of occurrences.
#[tactic(auto, using(crate::proofs::KindLemmas::kinds))]
pub(crate) fn write_rows<S: Alter>(
    tx: &mut Transaction<'_, S>,
    change: &Change,
) -> Result<(), Error>
    ensures { WritesAccepted (λ _. ⊤) (AcceptsRows change.now) S.Store tx.old tx.new result
        (rows_moved change.now) }
{
    write_moves(tx, Table::LongTerm, &change.ltp)?;
    write_moves(tx, Table::Current, &change.cp)?;
    write_moves(tx, Table::History, &change.history)?;
    write_moves(tx, Table::Deletion, &change.deletions)
}

// Whether the pair is one of these.
fn has_pair(pairs: &Blocks<u32, Pair>, pair: &Pair) -> bool
    requires { ArePairBlocks pairs.now }
    ensures { result ≡ is_among (items_of pairs.now) pair.now }
{
    has_item(pairs, pair)
}

// Those of the added pairs that are among these.
fn standing(
    alloc: Global,
    pairs: &Blocks<u32, Pair>,
    added: &[Pair],
) -> Result<Vec<Pair>, AllocError>
    requires { ArePairBlocks pairs.now }
    ensures { IfOk result (λ found. found.items ≡ standing (items_of pairs.now) added.now) }
{
    added
        .iter()
        .copied()
        .filter(|pair| has_pair(pairs, pair))
        .collect(alloc)
}

/// Makes a change of the pairs. Added pairs that are already there are deleted first; usually there are none.
#[tactic(auto, using(crate::proofs::KindLemmas::kinds))]
pub(crate) fn write_pairs<S: Alter>(
    tx: &mut Transaction<'_, S>,
    alloc: Global,
    old: &Blocks<u32, Pair>,
    change: &PairChange,
) -> Result<(), Error>
    requires { ArePairBlocks old.now }
    ensures { WritesAccepted (λ _. ⊤) (AcceptsPairs (items_of old.now) change.now) S.Store
        tx.old tx.new result
        (pairs_moved (items_of old.now) change.now) }
{
    let there = standing(alloc, old, change.added.as_slice())?;
    delete_each(tx, Table::Dependency, change.removed.as_slice())?;
    delete_each(tx, Table::Dependency, &there)?;
    put_many(tx, Table::Dependency, change.added.as_slice())
}

// Whether the link is one of these, with the same limit.
fn has_link(links: &[Link], link: &Link) -> bool
    requires { IsRising link_cmp links.now }
    ensures { result ≡ holds_link links.now link.now }
{
    match links.binary_search(link) {
        Ok(place) => links[place].within == link.within,
        Err(_) => false,
    }
}

// Those of the links that the others lack; a link with another limit is another.
fn links_beside(alloc: Global, others: &[Link], links: &[Link]) -> Result<Vec<Link>, AllocError>
    requires { IsRising link_cmp others.now }
    ensures { IfOk result (λ found. found.items ≡ beside others.now links.now) }
{
    links
        .iter()
        .copied()
        .filter(|link| !has_link(others, link))
        .collect(alloc)
}

// Replaces links in force: deletes those that are no longer there, and inserts the new ones. A link whose limit changed
// is deleted before it is inserted, because the table has at most one row of its names.
fn replace_links<S: Alter>(
    tx: &mut Transaction<'_, S>,
    alloc: Global,
    old: &[Link],
    new: &[Link],
) -> Result<(), Error>
    requires old { IsRising link_cmp old.now }
    requires new { IsRising link_cmp new.now }
    ensures { WritesAccepted (λ _. ⊤) (AcceptsNewLinks old.now new.now) S.Store tx.old tx.new result
        (links_replaced old.now new.now) }
{
    let gone = links_beside(alloc, new, old)?;
    let come = links_beside(alloc, old, new)?;
    delete_each(tx, Table::LinkInForce, &gone)?;
    put_each(tx, Table::LinkInForce, &come)
}

// Replaces all lists in force.
fn replace_lists<S: Alter>(
    tx: &mut Transaction<'_, S>,
    alloc: Global,
    old: &LinkBlocks,
    new: &LinkBlocks,
) -> Result<(), Error>
    ensures { WritesAccepted (λ _. ⊤) (AcceptsNewLinks old.now.items new.now.items) S.Store
        tx.old tx.new result
        (links_replaced old.now.items new.now.items) }
{
    let before = old.to_links(alloc)?;
    let after = new.to_links(alloc)?;
    replace_links(tx, alloc, before.as_slice(), after.as_slice())
}

// Replaces the list of one application. The others are not looked at.
fn replace_list<S: Alter>(
    tx: &mut Transaction<'_, S>,
    alloc: Global,
    old: &LinkBlocks,
    list: &AppList,
) -> Result<(), Error>
    ensures { WritesAccepted (λ _. ⊤)
        (AcceptsNewLinks old.now.items
        (with_list list.now.app list.now.links.items old.now.items))
        S.Store tx.old tx.new result
        (links_replaced old.now.items
        (with_list list.now.app list.now.links.items old.now.items)) }
{
    old.rise();
    replace_links(tx, alloc, old.list(&list.app), list.links.as_slice())
}

// Puts new lists in force.
fn put_lists<S: Alter>(
    tx: &mut Transaction<'_, S>,
    alloc: Global,
    old: &LinkBlocks,
    new: &NewLists,
) -> Result<(), Error>
    ensures { WritesAccepted (λ _. ⊤) (AcceptsLinks old.now.items (Some new.now)) S.Store
        tx.old tx.new result
        (links_moved old.now.items (Some new.now)) }
{
    match new {
        NewLists::All(lists) => replace_lists(tx, alloc, old, lists),
        NewLists::One(list) => replace_list(tx, alloc, old, list),
    }
}

/// Puts new lists in force in place of the old ones, if there are any. Where one list changes, only that list is
/// compared.
pub(crate) fn write_links<S: Alter>(
    tx: &mut Transaction<'_, S>,
    alloc: Global,
    old: &LinkBlocks,
    new: &Option<NewLists>,
) -> Result<(), Error>
    ensures { WritesAccepted (λ _. ⊤) (AcceptsLinks old.now.items new.now) S.Store
        tx.old tx.new result
        (links_moved old.now.items new.now) }
{
    match new {
        None => Ok(()),
        Some(new) => put_lists(tx, alloc, old, new),
    }
}
