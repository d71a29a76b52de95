// Links by the names in them: in the order of their applications, and in that of their predecessors.

ghost use Rattle.std.specs.Prelude.{◌≡◌, ◌↔◌, ◌⊎◌, ℕ, List, Contains, IfOk, OnOk, map};
ghost use Rattle.external_dependencies.specs.Link.{link_cmp};
ghost use Rattle.external_dependencies.specs.Rising.{IsRising};
ghost use Rattle.external_dependencies.specs.declared.links.Link.{Link as LinkValue};
ghost use Rattle.plan_store_lists.specs.Blocks.{HasRoomAt, items_of};
ghost use Rattle.plan_store_lists.specs.Keyed.{IsKeyed, LacksKey};
ghost use Rattle.plan_store_lists.specs.LinkBlocks.{AreNamingBlocks, names_cmp, names_in, names_of, naming_of};
ghost use Rattle.plan_store_lists.specs.declared.namings.Naming.{Naming as NamingValue};

use crate::blocks::{Blocks, insert_run, remove_run, reserve_group};
use crate::grouped::Grouped;
use crate::keyed::Keyed;
use crate::search::sort;
use external_dependencies::Link;
use std::alloc::{AllocError, Global};
use work_calendars::App;

/// The two names in a link, ordered by the first, then by the second, in byte order.
#[derive(Clone, Copy, PartialEq, Eq, PartialOrd, Ord)]
pub struct Names {
    /// The application by which a block is found.
    pub first: App,
    /// The other one.
    pub second: App,
}

/// A link, found by its predecessor.
#[derive(Clone, Copy)]
pub struct Naming {
    /// The link.
    pub link: Link,
}

impl Keyed for Link {
    ghost use Rattle.plan_store_lists.specs.LinkBlocks.{names_of, names_ties};

    type Key = Names;

    ghost key_of = { names_of };

    ghost ties = { names_ties };

    fn key(&self) -> Names {
        Names {
            first: self.app,
            second: self.predecessor,
        }
    }
}

impl Grouped for Link {
    ghost use Rattle.external_dependencies.proofs.OrderLemmas.{name_ties};
    ghost use Rattle.plan_store_lists.specs.LinkBlocks.{links_rise};

    type Group = App;

    ghost group_of = { λ link. link.app };

    ghost group_ties = { name_ties };

    ghost rises = { links_rise };

    fn group(&self) -> App {
        self.app
    }
}

impl Keyed for Naming {
    ghost use Rattle.plan_store_lists.specs.LinkBlocks.{names_in, names_ties};

    type Key = Names;

    ghost key_of = { names_in };

    ghost ties = { names_ties };

    fn key(&self) -> Names {
        Names {
            first: self.link.predecessor,
            second: self.link.app,
        }
    }
}

impl Grouped for Naming {
    ghost use Rattle.external_dependencies.proofs.OrderLemmas.{name_ties};
    ghost use Rattle.plan_store_lists.specs.LinkBlocks.{namings_rise};

    type Group = App;

    ghost group_of = { λ naming. naming.link.predecessor };

    ghost group_ties = { name_ties };

    ghost rises = { namings_rise };

    fn group(&self) -> App {
        self.link.predecessor
    }
}

// Each link, as it is found by its predecessor.
fn turned(alloc: Global, links: &[Link]) -> Result<Vec<Naming>, AllocError>
    ensures { IfOk result (λ namings. namings.items ≡ map naming_of links.now) }
{
    links
        .iter()
        .map(|link| Naming { link: *link })
        .collect(alloc)
}

// The namings of these links, in the order of their predecessors.
pub(crate) fn namings_of(alloc: Global, links: &[Link]) -> Result<Vec<Naming>, AllocError>
    requires { IsRising link_cmp links.now }
    ensures keyed { IfOk result (λ namings. IsKeyed names_cmp names_in namings.items) }
    ensures all { IfOk result (λ namings. (naming : NamingValue) →
        Contains namings.items naming ↔ Contains links.now naming.link) }
{
    let mut namings = turned(alloc, links)?;
    sort(&mut namings);
    Ok(namings)
}

// Makes room for the namings of these links.
pub(crate) fn reserve_namings(
    alloc: Global,
    namings: &mut Blocks<App, Naming>,
    links: &[Link],
) -> Result<(), AllocError>
    requires blocks { AreNamingBlocks namings.old.blocks.items }
    ensures blocks { AreNamingBlocks namings.new.blocks.items }
    ensures same { items_of namings.new ≡ items_of namings.old }
    ensures room { OnOk result ((link : LinkValue) → Contains links.now link
        → HasRoomAt namings.new.blocks.items link.predecessor 1) }
{
    for link in links {
        reserve_group(alloc, namings, &link.predecessor, 1)?;
    }
    Ok(())
}

// Removes the namings of these links.
pub(crate) fn remove_namings(namings: &mut Blocks<App, Naming>, links: &[Link])
    requires { AreNamingBlocks namings.old.blocks.items }
    ensures blocks { AreNamingBlocks namings.new.blocks.items }
    ensures removed { (naming : NamingValue) → Contains (items_of namings.new) naming
        ↔ (Contains (items_of namings.old) naming
        × LacksKey names_of links.now (names_of naming.link)) }
    ensures stays { (app : List ℕ) (count : ℕ) → HasRoomAt namings.old.blocks.items app count
        → HasRoomAt namings.new.blocks.items app count }
{
    for link in links {
        remove_run(namings, &[Naming { link: *link }]);
    }
}

// Inserts the namings of the links of an application, of which none is there. There is room for them.
pub(crate) fn insert_namings(namings: &mut Blocks<App, Naming>, links: &[Link])
    requires blocks { AreNamingBlocks namings.old.blocks.items }
    requires rising { IsRising link_cmp links.now }
    requires one { (a b : LinkValue) → Contains links.now a → Contains links.now b
        → a.app ≡ b.app }
    requires new { (link : LinkValue) → Contains links.now link
        → LacksKey names_in (items_of namings.old) (names_in (naming_of link)) }
    requires room { (link : LinkValue) → Contains links.now link
        → HasRoomAt namings.old.blocks.items link.predecessor 1 }
    ensures blocks { AreNamingBlocks namings.new.blocks.items }
    ensures inserted { (naming : NamingValue) → Contains (items_of namings.new) naming
        ↔ (Contains links.now naming.link ⊎ Contains (items_of namings.old) naming) }
{
    for link in links {
        insert_run(namings, &[Naming { link: *link }]);
    }
}
