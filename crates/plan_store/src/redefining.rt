// Changes of definitions that are begun, and then ended or rolled back.

ghost use Rattle.std.specs.Prelude.{◌≡◌, OnOk, OnErr, IfOk};
ghost use Rattle.plan_store.specs.Changes.{redefined};
ghost use Rattle.plan_store.specs.Redefining.{CanUndo, ended, half_redefined, undone};

use crate::changes::DefinitionChange;
use app_definitions::{Definitions, Kind, Replaced, merge_is_rolled_back};
use std::alloc::AllocError;
use work_calendars::Name;

// A change of definitions that is begun.
#[derive(Drop)]
pub(crate) enum Redefining {
    // They stay.
    Nothing,
    // A block's definitions were added; this is what their names had before.
    Came(Replaced),
    // The definition of one kind and name is removed at the end.
    Goes { kind: Kind, name: Name },
}

// Begins a change of definitions; if memory is refused, changes nothing. A block's definitions are added at once; what
// is removed stays until the end.
pub(crate) fn begin(
    definitions: &mut Definitions,
    change: DefinitionChange,
) -> Result<Redefining, AllocError>
    ensures ok { OnOk result (definitions.new ≡ half_redefined change definitions.old) }
    ensures ends { IfOk result (λ begun. ended begun definitions.new
        ≡ redefined change definitions.old) }
    ensures can_undo { IfOk result (λ begun. CanUndo begun definitions.new) }
    ensures undoes { IfOk result (λ begun. undone begun definitions.new ≡ definitions.old) }
    ensures err { OnErr result (definitions.new ≡ definitions.old) }
{
    merge_is_rolled_back();
    match change {
        DefinitionChange::AsBefore => Ok(Redefining::Nothing),
        DefinitionChange::Merged(block) => {
            let was = definitions.replaced_by(&block)?;
            definitions.merge(block)?;
            Ok(Redefining::Came(was))
        }
        DefinitionChange::Removed { kind, name } => Ok(Redefining::Goes { kind, name }),
    }
}

// Ends a change of definitions: removes what has to go.
pub(crate) fn end(definitions: &mut Definitions, begun: Redefining)
    ensures { definitions.new ≡ ended begun definitions.old }
{
    if let Redefining::Goes { kind, name } = begun {
        definitions.remove(kind, &name);
    }
}

// Rolls back what was begun: the names of a block have what they had before.
pub(crate) fn undo(definitions: &mut Definitions, begun: Redefining)
    requires { CanUndo begun definitions.old }
    ensures { definitions.new ≡ undone begun definitions.old }
{
    if let Redefining::Came(was) = begun {
        definitions.put_back(was);
    }
}
