ghost use Rattle.std.specs.Prelude.{◌≡◌, Contains};
ghost use Rattle.external_dependencies.specs.Link.{link_cmp};
ghost use Rattle.external_dependencies.specs.Rising.{IsRising};
ghost use Rattle.external_dependencies.specs.declared.links.Link.{Link as LinkValue};

use external_dependencies::Link;
use work_calendars::App;

/// The list of predecessors of one application.
#[derive(Drop)]
pub struct AppList {
    /// The application.
    pub app: App,
    /// Its links, in rising order.
    pub links: Vec<Link>,
    ghost rising: { IsRising link_cmp links.items },
    ghost own: { (link : LinkValue) → Contains links.items link → link.app ≡ app },
}
