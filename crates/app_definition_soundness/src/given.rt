// Definitions that some good records give.

ghost use Rattle.std.specs.Prelude.{◌≡◌, ◌↔◌, ℕ, List, All, Some, IsTrue, IfOk};
ghost use Rattle.std.specs.FinMap as map;
ghost use Rattle.app_definition_soundness.specs.Given.{AllGiven};

use app_definitions::ByName;
use std::alloc::{AllocError, Global};
use work_calendars::Name;

/// A definition that can be tested for whether data blocks give it.
pub(crate) trait Given: Drop {
    /// Some good records make the definition of the name.
    ghost IsGiven: { List ℕ → Self → Type 0 };

    /// Whether some good records make it.
    fn is_given(&self, alloc: Global, name: &Name) -> Result<bool, AllocError>
        ensures { IfOk result (λ b. IsTrue b ↔ IsGiven name.now self.now) };
}

// Whether some good records make what is defined by the name, if anything is.
fn name_is_given<D: Given>(
    alloc: Global,
    definitions: &ByName<D>,
    name: &Name,
) -> Result<bool, AllocError>
    ensures { IfOk result (λ b. IsTrue b
        ↔ ((d : D) → map.get definitions.now name.now ≡ Some d → D.IsGiven name.now d)) }
{
    match definitions.get(name) {
        Some(definition) => definition.is_given(alloc, name),
        None => Ok(true),
    }
}

// Whether all of these names have such definitions.
fn names_are_given<D: Given>(
    alloc: Global,
    definitions: &ByName<D>,
    names: &[Name],
) -> Result<bool, AllocError>
    ensures { IfOk result (λ b. IsTrue b ↔ All
        (λ name. (d : D) → map.get definitions.now name ≡ Some d → D.IsGiven name d) names.now) }
{
    for name in names {
        let given = name_is_given(alloc, definitions, name)?;
        if !given {
            return Ok(false);
        }
    }
    Ok(true)
}

/// Whether some good records make each of them.
pub(crate) fn all_given<D: Given>(
    alloc: Global,
    definitions: &ByName<D>,
) -> Result<bool, AllocError>
    ensures { IfOk result (λ b. IsTrue b ↔ AllGiven D.IsGiven definitions.now) }
{
    let names = definitions.names(alloc)?;
    names_are_given(alloc, definitions, &names)
}
