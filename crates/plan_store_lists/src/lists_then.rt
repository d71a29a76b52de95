ghost use Rattle.std.specs.Prelude.{◌≡◌, ◌↔◌, Contains, IfOk};
ghost use Rattle.external_dependencies.specs.Link.{link_cmp};
ghost use Rattle.external_dependencies.specs.Rising.{IsRising};
ghost use Rattle.external_dependencies.specs.declared.links.Link.{Link as LinkValue};

use crate::app_lists::AppList;
use crate::link_blocks::LinkBlocks;
use external_dependencies::{Link, Links};
use std::alloc::{AllocError, Global};
use work_calendars::App;

/// Lists of predecessors as they are, or with one of them replaced. None is copied.
#[derive(Clone, Copy)]
pub struct ListsThen<'a> {
    /// All lists.
    pub lists: &'a LinkBlocks,
    /// The list that replaces the one of its application; `None` if none is replaced.
    pub own: Option<&'a AppList>,
}

impl<'a> ListsThen<'a> {
    ghost use Rattle.plan_store_lists.specs.ListsThen.{links_then};

    /// The list of an application.
    pub fn list(&self, app: &App) -> &'a [Link]
        ensures rising { IsRising link_cmp result.now }
        ensures all { (link : LinkValue) → Contains result.now link
            ↔ (Contains (links_then self.now) link × (link.app ≡ app.now)) }
    {
        if let Some(own) = self.own {
            if own.app == *app {
                return own.links.as_slice();
            }
        }
        self.lists.list(app)
    }

    /// The lists of these applications alone.
    pub fn of_apps(&self, alloc: Global, apps: &[App]) -> Result<Links, AllocError>
        ensures { IfOk result (λ links. (link : LinkValue) → Contains links link
            ↔ (Contains (links_then self.now) link × Contains apps.now link.app)) }
    {
        self.lists.rise();
        let mut found = Vec::new(alloc);
        for app in apps {
            found.extend_from_slice(self.list(app))?;
        }
        Ok(Links::from_vec(found))
    }

    /// All lists as one list of links.
    pub fn to_links(&self, alloc: Global) -> Result<Links, AllocError>
        ensures { IfOk result (λ links. links ≡ links_then self.now) }
    {
        match self.own {
            Some(own) => {
                self.lists.rise();
                let mut found = self.lists.others(alloc, &own.app)?;
                found.extend_from_slice(&own.links)?;
                Ok(Links::from_vec(found))
            }
            None => self.lists.to_links(alloc),
        }
    }
}
