//! The groups that a transaction meets.

ghost use Rattle.std.specs.Prelude.{◌≡◌, ◌++◌, ◌∷◌, [], Some, IfOk, OnOk};
ghost use Rattle.batcher.specs.Inner.Owners.{get_by_path, paths_of, AreBeside, AreNumbered, HaveNumbered};
ghost use Rattle.batcher.specs.Inner.Joining.{met_with, all_met, unowned_paths};
ghost use Rattle.batcher.specs.declared.met.Met.TheVariants.{Nothing};

use crate::owners::{NewPath, Owners};
use values::{NoMemory, Str};

/// The groups that have one of a transaction's paths.
#[derive(Clone, Copy)]
pub enum Met {
    Nothing,
    /// One group, by its number.
    Group(usize),
    Several,
}

// The groups met so far, and one more.
fn met_with(met: Met, group: usize) -> Met
    ensures { result ≡ met_with met (Some group) }
{
    match met {
        Met::Nothing => Met::Group(group),
        Met::Group(other) => {
            if group == other {
                return Met::Group(other);
            }
            Met::Several
        }
        Met::Several => Met::Several,
    }
}

// The groups met so far, and the owner of one more path, which gets a number. If no group owns it, it is added to
// `unowned`.
fn meet<'p>(
    met: Met,
    owners: &mut Owners<'p>,
    path: &'p str,
    unowned: &mut Vec<NewPath<'p>>,
) -> Result<Met, NoMemory>
    requires beside { AreBeside owners.old }
    requires numbered { AreNumbered owners.old.names unowned.old.items }
    ensures kept { OnOk result (HaveNumbered owners.old owners.new) }
    ensures met { IfOk result (λ more. more ≡ met_with met (get_by_path owners.old path.now)) }
    ensures unowned { OnOk result (paths_of unowned.new.items
        ≡ paths_of unowned.old.items ++ unowned_paths (get_by_path owners.old) (path.now ∷ [])) }
    ensures numbered { OnOk result (AreNumbered owners.new.names unowned.new.items) }
{
    let number = owners.number(path)?;
    match owners.group(number) {
        None => {
            unowned.push(NewPath {
                path: Str::new(path),
                number,
            })?;
            Ok(met)
        }
        Some(group) => Ok(met_with(met, group)),
    }
}

/// The groups that own one of the paths, and the paths that none owns. All paths get a number.
pub(crate) fn met_by<'p>(
    owners: &mut Owners<'p>,
    paths: &[Str<'p>],
    unowned: &mut Vec<NewPath<'p>>,
) -> Result<Met, NoMemory>
    requires { AreBeside owners.old }
    ensures kept { OnOk result (HaveNumbered owners.old owners.new) }
    ensures met { IfOk result (λ met. met ≡ all_met (get_by_path owners.old) Nothing paths.now) }
    ensures unowned { OnOk result
        (paths_of unowned.new.items ≡ unowned_paths (get_by_path owners.old) paths.now) }
    ensures numbered { OnOk result (AreNumbered owners.new.names unowned.new.items) }
{
    unowned.clear();
    let mut met = Met::Nothing;
    for path in paths {
        met = meet(met, owners, path.as_str(), unowned)?;
    }
    Ok(met)
}
