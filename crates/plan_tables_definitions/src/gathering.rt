// Definitions collected from the rows of a table.

ghost use Rattle.std.specs.Prelude.{◌≡◌, ◌∷◌, ◌++◌, ℕ, [], List, IfOk, IfSome, IsSome, IsTrue, All};
ghost use Rattle.std.specs.FinMap as map;
ghost use Rattle.sqlite.specs.Order.{Row as Values, column};
ghost use Rattle.sqlite.specs.declared.types.Value.TheVariants.{Text};
ghost use Rattle.plan_tables_content.specs.Content.{AreEach, ByName as Defined, IsOfSome};
ghost use Rattle.plan_tables_definitions.specs.Adding.{IsOfName};
ghost use Rattle.plan_tables_definitions.specs.Gathering.{Alike, AreRead, AreSound, CanFinish, IsFinish, IsGathered, Joins};
ghost use Rattle.plan_tables_definitions.specs.Gathering.{Paired, Within};
ghost use Rattle.plan_tables_definitions.specs.Storing.{AreRowsOf};

use crate::columns::name_at;
use crate::drafts::Drafts;
use app_definitions::ByName;
use sqlite_value::row::Row;
use std::alloc::{AllocError, Global};
use work_calendars::Name;

/// What the rows of a name have encoded so far.
pub(crate) trait Draft: Drop {
    /// The definition that they encode in the end.
    type Of: Drop;

    /// It is a row of the definition of the name.
    ghost IsRow: { List ℕ → Self.Of → Values → Type 0 };

    /// It is one that rows can encode.
    ghost IsSound: { List ℕ → Self.Of → Type 0 };

    /// Its rows distinguish it from all others.
    ghost IsTold: { Self.Of → Type 0 };

    /// It is a row of the name that was read.
    ghost IsRead: { List ℕ → Self → Values → Type 0 };

    /// Nothing was read.
    fn begin(alloc: Global) -> Self
        ensures { (name : List ℕ) (v : Values) → IsRead name result v → ⊥ };

    /// Reads a row of the name, or returns that no definition has it together with the others.
    fn join(&mut self, name: &Name, row: &Row) -> Result<bool, AllocError>
        requires { column row.now 0 ≡ Text name.now }
        ensures taken { IfOk result (λ b. IsTrue b
            → Joins (IsRead name.now self.old) row.now (IsRead name.now self.new)) }
        ensures refused { IfOk result (λ b. (d : Self.Of) → IsSound name.now d
            → IsRow name.now d row.now
            → Within (IsRead name.now self.old) (IsRow name.now d) → IsTrue b) };

    /// The definition that has the rows that were read, if there is one.
    fn finish(&self, alloc: Global, name: &Name) -> Result<Option<Self::Of>, AllocError>
        ensures made { IfOk result (λ found.
            IfSome found (IsFinish IsRow IsRead name.now self.now)) }
        ensures told { IfOk result (λ found. IfSome found
            (λ d. (v : Values) → IsRead name.now self.now v → IsTold d)) }
        ensures found { IfOk result (λ found. (d : Self.Of) → IsSound name.now d
            → IsFinish IsRow IsRead name.now self.now d → IsSome found) };

    /// A row begins with its name.
    ghost named: { (name : List ℕ) (d : Self.Of) (v : Values) → IsRow name d v
        → column v 0 ≡ Text name };

    /// So does a row that was read.
    ghost read_named: { (name : List ℕ) (x : Self) (v : Values) → IsRead name x v
        → column v 0 ≡ Text name };
}

// What was read of the name, which is taken out, or nothing.
fn draft_of<D: Draft>(alloc: Global, drafts: &mut Drafts<D>, name: &Name) -> D
    ensures read { Alike (D.IsRead name.now result) (IsOfName D.IsRead drafts.old name.now) }
    ensures removed { drafts.new ≡ map.remove drafts.old name.now }
{
    match drafts.take(name) {
        Some(draft) => draft,
        None => D::begin(alloc),
    }
}

// Reads a row of the name, or returns that no definitions have it together with the others.
fn read_row<D: Draft>(
    alloc: Global,
    drafts: &mut Drafts<D>,
    name: &Name,
    row: &Row,
) -> Result<bool, AllocError>
    requires { column row.now 0 ≡ Text name.now }
    ensures taken { IfOk result (λ b. (before : List Values) → IsTrue b
        → AreRead D.IsRead before drafts.old
        → AreRead D.IsRead (before ++ row.now ∷ []) drafts.new) }
    ensures refused { IfOk result (λ b. (all : Defined D.Of) → AreSound D.IsSound all
        → IsOfSome D.IsRow all row.now
        → Within (IsOfSome D.IsRead drafts.old) (IsOfSome D.IsRow all) → IsTrue b) }
{
    let mut draft = draft_of(alloc, drafts, name);
    if !draft.join(name, row)? {
        return Ok(false);
    }
    drafts.put(*name, draft)?;
    Ok(true)
}

// Reads these rows, or returns that no definitions have them.
fn read_rows<D: Draft>(alloc: Global, rows: &[Row]) -> Result<Option<Drafts<D>>, AllocError>
    ensures read { IfOk result (λ found. IfSome found (AreRead D.IsRead rows.now)) }
    ensures refused { IfOk result (λ found. (all : Defined D.Of) → AreSound D.IsSound all
        → AreRowsOf D.IsRow rows.now all → IsSome found) }
{
    let mut drafts = Drafts::new(alloc);
    for row in rows {
        let Some(name) = name_at(row, 0) else {
            return Ok(None);
        };
        if !read_row(alloc, &mut drafts, &name, row)? {
            return Ok(None);
        }
    }
    Ok(Some(drafts))
}

// The definitions that have the rows that were read of each name.
fn finish_each<D: Draft>(
    alloc: Global,
    drafts: &[(Name, D)],
) -> Result<Option<Vec<(Name, D::Of)>>, AllocError>
    ensures made { IfOk result (λ found. IfSome found
        (λ entries. Paired (λ name x d. IsGathered D.IsRow D.IsRead D.IsTold name x d)
        drafts.now entries.items)) }
    ensures found { IfOk result (λ found. All (CanFinish D.IsRow D.IsRead D.IsSound) drafts.now
        → IsSome found) }
{
    let mut entries = Vec::new(alloc);
    for draft in drafts {
        match draft.1.finish(alloc, &draft.0)? {
            Some(definition) => entries.push((draft.0, definition))?,
            None => return Ok(None),
        }
    }
    Ok(Some(entries))
}

// The definitions that have the rows that were read.
fn finish_all<D: Draft>(
    alloc: Global,
    drafts: Drafts<D>,
) -> Result<Option<ByName<D::Of>>, AllocError>
    ensures made { IfOk result (λ found. IfSome found
        (λ all. Alike (IsOfSome D.IsRow all) (IsOfSome D.IsRead drafts))) }
    ensures told { IfOk result (λ found. IfSome found
        (λ all. (read : List Values) → AreRead D.IsRead read drafts → AreEach D.IsTold all)) }
    ensures found { IfOk result (λ found. (all : Defined D.Of) (read : List Values)
        → AreSound D.IsSound all
        → AreRead D.IsRead read drafts → AreRowsOf D.IsRow read all → IsSome found) }
{
    let drafts = drafts.into_vec(alloc)?;
    match finish_each(alloc, &drafts)? {
        Some(entries) => ByName::from_vec(alloc, entries),
        None => Ok(None),
    }
}

/// The definitions that have exactly these rows, each one at least, or none where no sound ones have these rows.
pub(crate) fn gathered<D: Draft>(
    alloc: Global,
    rows: &[Row],
) -> Result<Option<ByName<D::Of>>, AllocError>
    ensures made { IfOk result (λ found. IfSome found (AreRowsOf D.IsRow rows.now)) }
    ensures told { IfOk result (λ found. IfSome found (AreEach D.IsTold)) }
    ensures found { IfOk result (λ found. (all : Defined D.Of) → AreSound D.IsSound all
        → AreRowsOf D.IsRow rows.now all → IsSome found) }
{
    match read_rows::<D>(alloc, rows)? {
        Some(drafts) => finish_all(alloc, drafts),
        None => Ok(None),
    }
}
