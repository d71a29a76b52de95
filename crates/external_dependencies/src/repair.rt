ghost use Rattle.std.specs.Prelude.{◌↔◌, ℕ, ◌⊎◌, List, Contains, IfOk, IsTrue};
ghost use Rattle.external_dependencies.specs.Change.{LeadsExactly};
ghost use Rattle.external_dependencies.specs.Reached.{AreAsked, HasSerialOf, HaveSameLists, HoldsReached};
ghost use Rattle.external_dependencies.specs.Reach.{IsReachOf};
ghost use Rattle.external_dependencies.specs.Settled.{AreSettled, IsSettledPair};
ghost use Rattle.external_dependencies.specs.Touch.{HasRowOf, MayReach, Touches};
ghost use Rattle.occurrences.specs.Place.{IsOpen};
ghost use Rattle.external_dependencies.specs.declared.links.Link.{Link as LinkValue};
ghost use Rattle.external_dependencies.specs.declared.pairs.Pair.{Pair as PairValue};
ghost use Rattle.external_dependencies.specs.declared.rows.PlacedRow.{PlacedRow as PlacedValue};
ghost use Rattle.external_dependencies.specs.declared.touch.Touch.{Touch as TouchValue};

use crate::change::PairChange;
use crate::links::Links;
use crate::pairs::{Pairs, resolve_some};
use crate::reach::Reach;
use crate::rows::{PlacedRow, Rows};
use crate::touch::{Touch, row_serials};
use occurrences::{Row, Serial};
use std::alloc::{AllocError, Global};

/// What leads from the pairs before a change to those after it: exactly the difference. `touch` names all that the
/// change touches. `rows` and `pairs` hold what it reaches, and `links` the lists in force after it of the applications
/// of these rows. Each may hold more; other rows, pairs and lists are not needed.
pub fn resolve_touched(
    alloc: Global,
    rows: &Rows,
    links: &Links,
    pairs: &Pairs,
    touch: &Touch,
) -> Result<PairChange, AllocError>
    ensures { IfOk result (λ change. (was now : List PlacedValue) (was_links all : List LinkValue)
        (old : List PairValue)
        → HaveSameLists rows.now links.now all
        → Touches touch.now was now was_links all → AreSettled was was_links old
        → HoldsReached touch.now all now old rows.now pairs.now
        → LeadsExactly old (IsSettledPair old now all) change) }
{
    let reach = Reach::build(alloc, touch)?;
    let asked = asked_rows(alloc, rows, links, &reach)?;
    let serials = serials_of(alloc, &asked, &touch.withdrawn)?;
    let had = pairs_of(alloc, pairs, &serials)?;
    let found = resolve_some(alloc, rows, &asked, links)?;
    PairChange::between(alloc, &had, &found)
}

// The open rows that the change may reach.
fn asked_rows(
    alloc: Global,
    rows: &Rows,
    links: &Links,
    reach: &Reach,
) -> Result<Vec<PlacedRow>, AllocError>
    ensures { IfOk result (λ asked. (touch : TouchValue) → IsReachOf touch reach.now →
        AreAsked touch links.now rows.now asked.items) }
{
    let mut asked = Vec::new(alloc);
    for placed in rows.as_slice() {
        if is_asked(placed, links, reach) {
            asked.push(*placed)?;
        }
    }
    Ok(asked)
}

// Whether the row is open, and the change may reach it.
fn is_asked(placed: &PlacedRow, links: &Links, reach: &Reach) -> bool
    ensures { (touch : TouchValue) → IsReachOf touch reach.now → IsTrue result
        ↔ (IsOpen placed.now.place × MayReach touch links.now placed.now.row) }
{
    placed.place.is_open() && reach.has(links, &placed.row)
}

// The serials of these rows, and of those.
fn serials_of(alloc: Global, rows: &[PlacedRow], more: &[Row]) -> Result<Vec<Serial>, AllocError>
    ensures { IfOk result (λ serials. (serial : ℕ) → Contains serials.items serial
        ↔ (HasSerialOf rows.now serial ⊎ HasRowOf more.now serial)) }
{
    let mut serials = row_serials(alloc, more)?;
    for placed in rows {
        serials.push(placed.row.serial)?;
    }
    Ok(serials)
}

// The pairs of these successors.
fn pairs_of(alloc: Global, pairs: &Pairs, serials: &[Serial]) -> Result<Pairs, AllocError>
    ensures { IfOk result (λ had. (pair : PairValue) → Contains had pair
        ↔ (Contains pairs.now pair × Contains serials.now pair.successor)) }
{
    let mut had = Vec::new(alloc);
    for serial in serials {
        had.extend_from_slice(pairs.of_successor(*serial))?;
    }
    Ok(Pairs::from_vec(had))
}
