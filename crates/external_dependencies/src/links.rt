ghost use Rattle.std.specs.Prelude.{◌≡◌, ◌==◌, [], ◌↔◌, Contains, IsTrue};
ghost use Rattle.std.specs.Cmp.{partial_order_from_own_ties};
ghost use Rattle.std.specs.Cmp.Lexicographic.{pointwise, slice_cmp};
ghost use Rattle.std.specs.Cmp.Rules.{comparing};
ghost use Rattle.std.specs.Ordering.{as_partial_cmp, eq_of_both, nat_cmp, on, then_cmp};
ghost use Rattle.std.proofs.Common.{rules};
ghost use Rattle.external_dependencies.specs.Rising.{IsRising};
ghost use Rattle.external_dependencies.specs.Link.{link_cmp, KeepsNames};
ghost use Rattle.external_dependencies.specs.declared.links.Link.{Link};

use crate::rising::into_ordered;
use std::alloc::{AllocError, Global};
use std::cmp::Ordering;
use std::marker::Model;
use work_calendars::{App, Within};

/// One entry of a predecessor list: an application, a predecessor in its list, and how long before an occurrence the
/// predecessor may arrive. Links are ordered by application, then by predecessor, in byte order, and those of the same
/// names are equal: the limit is not looked at.
#[derive(Clone, Copy, Debug)]
pub struct Link {
    /// The application whose list it is.
    pub app: App,
    /// The application that the list names.
    pub predecessor: App,
    /// The most hours from the arrival of the predecessor to that of the occurrence; `None` where there is no limit.
    pub within: Option<Within>,
}

impl PartialEq for Link {
    ghost eq = { eq_of_both (on (λ l. l.app) (pointwise ◌==◌))
        (on (λ l. l.predecessor) (pointwise ◌==◌)) };

    ghost laws = { Prim.search (comparing, rules) };

    fn eq(&self, other: &Link) -> bool {
        self.app == other.app && self.predecessor == other.predecessor
    }
}

impl Eq for Link {
    ghost laws = { Prim.search (comparing, rules) };
}

impl Ord for Link {
    ghost cmp = { then_cmp (on (λ l. l.app) (slice_cmp nat_cmp))
        (on (λ l. l.predecessor) (slice_cmp nat_cmp)) };

    ghost total = { Prim.search (comparing, rules) };

    ghost matches_partial_cmp = { Prim.search (comparing, rules) };

    ghost matches_eq = { Prim.search (comparing, rules) };

    fn cmp(&self, other: &Link) -> Ordering {
        self.app
            .cmp(&other.app)
            .then(self.predecessor.cmp(&other.predecessor))
    }
}

impl PartialOrd for Link {
    ghost partial_cmp = { as_partial_cmp (then_cmp (on (λ l. l.app) (slice_cmp nat_cmp))
        (on (λ l. l.predecessor) (slice_cmp nat_cmp))) };

    ghost laws = { partial_order_from_own_ties (Prim.search (comparing, rules)) (Prim.search (comparing, rules)) };

    fn partial_cmp(&self, other: &Link) -> Option<Ordering> {
        Some(self.cmp(other))
    }
}

/// Lists of predecessors by application. Contracts see the links of all lists, in rising order, each pair of names
/// once.
#[derive(Drop)]
pub struct Links {
    links: Vec<Link>,
}

impl Model for Links {
    ghost use Rattle.std.specs.Prelude.{List};
    ghost use Rattle.external_dependencies.specs.declared.links.Link.{Link};

    ghost Value = { List Link };

    ghost use Rattle.external_dependencies.specs.Rising.{IsRising};
    ghost use Rattle.external_dependencies.specs.Link.{link_cmp};

    ghost view = { λ s. s.links.items };

    ghost invariant = { λ s. IsRising link_cmp s.links.items };
}

impl Clone for Links {
    ghost is_clone = { λ old new. new ≡ old };

    fn clone(&self) -> Result<Links, AllocError> {
        Ok(Links {
            links: self.links.clone()?,
        })
    }
}

impl Links {
    /// No lists.
    pub fn new(alloc: Global) -> Links
        ensures { result ≡ [] }
    {
        Links {
            links: Vec::new(alloc),
        }
    }

    /// The lists that these links make, given in any order. Of several links of the same names one stays.
    pub fn from_vec(links: Vec<Link>) -> Links
        ensures rising { IsRising link_cmp result }
        ensures kept { KeepsNames links.items result }
    {
        Links {
            links: into_ordered(links),
        }
    }

    /// The links of all lists, in rising order.
    pub fn as_slice(&self) -> &[Link]
        ensures all { result.now ≡ self.now }
        ensures rising { IsRising link_cmp self.now }
    {
        self.links.as_slice()
    }

    /// The links of all lists, in rising order.
    pub fn into_vec(self) -> Vec<Link>
        ensures all { result.items ≡ self }
        ensures rising { IsRising link_cmp self }
    {
        let Links { links } = self;
        links
    }

    /// Whether the link is one of these, with the same limit.
    pub fn contains(&self, link: &Link) -> bool
        ensures { IsTrue result ↔ Contains self.now link.now }
    {
        match self.links.binary_search(link) {
            Ok(place) => self.links[place].within == link.within,
            Err(_) => false,
        }
    }

    /// The list of an application.
    pub fn list(&self, app: &App) -> &[Link]
        ensures rising { IsRising link_cmp result.now }
        ensures all { (link : Link) → Contains result.now link
            ↔ (Contains self.now link × (link.app ≡ app.now)) }
    {
        let start = self.links.partition_point(|link| link.app < *app);
        let rest = &self.links[start..];
        let count = rest.partition_point(|link| link.app <= *app);
        &rest[..count]
    }
}
