// The lists of predecessors in force, in blocks.

ghost use Rattle.std.specs.Prelude.{◌≡◌, ◌≢◌, ◌↔◌, [], Contains, IfOk, IsTrue, OnOk};
ghost use Rattle.external_dependencies.specs.Link.{link_cmp};
ghost use Rattle.external_dependencies.specs.Rising.{IsRising};
ghost use Rattle.external_dependencies.specs.declared.links.Link.{Link as LinkValue};
ghost use Rattle.plan_store_lists.specs.Blocks.{items_in};
ghost use Rattle.plan_store_lists.specs.Keyed.{IsKeyed};
ghost use Rattle.plan_store_lists.specs.LinkBlocks.{HasListRoom, names_cmp, names_in, with_list};
ghost use Rattle.plan_store_lists.specs.declared.namings.Naming.{Naming as NamingValue};

use crate::app_lists::AppList;
use crate::blocks::{Block, Blocks, all_of, from_items, of_group, put_group, reserve_group};
use crate::keyed::Keyed;
use crate::namings::{Naming, insert_namings, namings_of, remove_namings, reserve_namings};
use crate::search::find;
use external_dependencies::{Link, Links};
use std::alloc::{AllocError, Global};
use std::marker::Model;
use work_calendars::App;

/// Lists of predecessors in force, in a block for each application, and the same links in a block for each predecessor.
/// Contracts see the links in rising order, and the blocks for the room in them.
#[derive(Drop)]
pub struct LinkBlocks {
    by_app: Blocks<App, Link>,
    by_predecessor: Blocks<App, Naming>,
}

impl Model for LinkBlocks {
    ghost use Rattle.plan_store_lists.specs.LinkBlocks.{AreBothBlocks, LinkList, listed_links};

    ghost Value = { LinkList };

    ghost view = { λ s. listed_links s.by_app.blocks.items s.by_predecessor.blocks.items };

    ghost invariant = { λ s. AreBothBlocks s.by_app.blocks.items s.by_predecessor.blocks.items };
}

impl LinkBlocks {
    /// No lists.
    pub fn new(alloc: Global) -> LinkBlocks
        ensures { result.items ≡ [] }
    {
        LinkBlocks {
            by_app: Blocks::new(alloc),
            by_predecessor: Blocks::new(alloc),
        }
    }

    /// These lists.
    pub fn from_links(alloc: Global, links: &Links) -> Result<LinkBlocks, AllocError>
        ensures { IfOk result (λ lists. lists.items ≡ links.now) }
    {
        let by_app = from_items(alloc, links.as_slice())?;
        let namings = namings_of(alloc, links.as_slice())?;
        let by_predecessor = from_items(alloc, &namings)?;
        Ok(LinkBlocks {
            by_app,
            by_predecessor,
        })
    }

    /// The links are in rising order.
    pub fn rise(&self)
        ensures { IsRising link_cmp self.now.items }
    {
        let _by_app = &self.by_app;
    }

    /// Whether there are no links.
    pub fn is_empty(&self) -> bool
        ensures { IsTrue result ↔ (self.now.items ≡ []) }
    {
        self.by_app.is_empty()
    }

    /// The list of an application.
    pub fn list(&self, app: &App) -> &[Link]
        ensures rising { IsRising link_cmp result.now }
        ensures all { (link : LinkValue) → Contains result.now link
            ↔ (Contains self.now.items link × (link.app ≡ app.now)) }
    {
        of_group(&self.by_app, app)
    }

    /// The links that name an application as predecessor.
    pub fn naming(&self, predecessor: &App) -> &[Naming]
        ensures keyed { IsKeyed names_cmp names_in result.now }
        ensures all { (naming : NamingValue) → Contains result.now naming
            ↔ (Contains self.now.items naming.link
            × (naming.link.predecessor ≡ predecessor.now)) }
    {
        of_group(&self.by_predecessor, predecessor)
    }

    /// Whether the link is one of these, with the same limit.
    pub fn contains(&self, link: &Link) -> bool
        ensures { IsTrue result ↔ Contains self.now.items link.now }
    {
        let list = self.list(&link.app);
        match find(list, &link.key()) {
            Ok(place) => list[place].within == link.within,
            Err(_) => false,
        }
    }

    /// The blocks: of each application one, with its links in rising order. The links of one block after another are
    /// all links.
    pub fn blocks(&self) -> &[Block<App, Link>]
        ensures { items_in result.now ≡ self.now.items }
    {
        self.by_app.blocks()
    }

    /// The lists as one list of links.
    pub fn to_links(&self, alloc: Global) -> Result<Links, AllocError>
        ensures { IfOk result (λ links. links ≡ self.now.items) }
    {
        Ok(Links::from_vec(all_of(alloc, &self.by_app)?))
    }

    // The links of all applications but this one.
    pub(crate) fn others(&self, alloc: Global, app: &App) -> Result<Vec<Link>, AllocError>
        ensures { IfOk result (λ links. (link : LinkValue) → Contains links.items link
            ↔ (Contains self.now.items link × (link.app ≢ app.now))) }
    {
        let mut found = Vec::new(alloc);
        for block in self.by_app.blocks() {
            if block.group != *app {
                found.extend_from_slice(&block.items)?;
            }
        }
        Ok(found)
    }

    /// Makes room for the list in place of the one of its application.
    pub fn reserve(&mut self, alloc: Global, list: &AppList) -> Result<(), AllocError>
        ensures same { self.new.items ≡ self.old.items }
        ensures room { OnOk result (HasListRoom list.now self.new) }
    {
        reserve_group(alloc, &mut self.by_app, &list.app, 0)?;
        reserve_namings(alloc, &mut self.by_predecessor, &list.links)
    }

    /// Puts the list in the place of the one of its application. There is room for it. Takes no memory, and only links
    /// of the two lists move.
    pub fn put(&mut self, list: AppList)
        requires { HasListRoom list self.old }
        ensures { self.new.items ≡ with_list list.app list.links.items self.old.items }
    {
        let AppList { app, links } = list;
        remove_namings(&mut self.by_predecessor, of_group(&self.by_app, &app));
        insert_namings(&mut self.by_predecessor, &links);
        put_group(&mut self.by_app, &app, links);
    }
}
