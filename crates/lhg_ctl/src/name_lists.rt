// Names that are sought in one of many lists.
ghost use Rattle.std.specs.Prelude.{◌≡◌, ◌<◌, ◌++◌, ◌∷◌, [], length, get_or, replicate, set, IfOk, OnOk};
ghost use Rattle.lhg_plant.specs.Differ.{is_among};
ghost use Rattle.lhg_ctl.specs.NameLists.{list_count, list_of, lists_in};

use lhg_plant::Name;
use std::alloc::{AllocError, Global};

/// How many lists there are.
pub(crate) const LIST_COUNT: usize = 1024;

// The list of a name.
fn list_of(name: &Name) -> usize
    ensures list { result ≡ list_of name.now }
    ensures below { result < list_count }
{
    let bytes = name.bytes();
    let mut place = 0;
    for i in 0..bytes.len() {
        place = (place * 31 + bytes[i] as usize) % LIST_COUNT;
    }
    place
}

// Whether the name is among these.
fn is_among(name: &Name, names: &[Name]) -> bool
    ensures { result ≡ is_among name.now names.now }
{
    names.iter().any(|other| other.bytes() == name.bytes())
}

/// So many lists without a name.
pub(crate) fn no_names(alloc: Global, count: usize) -> Result<Vec<Vec<Name>>, AllocError>
    ensures { IfOk result (λ v. lists_in v.items ≡ replicate count []) }
{
    let mut lists = Vec::with_capacity(alloc, count)?;
    for _i in 0..count {
        lists.push(Vec::new(alloc))?;
    }
    Ok(lists)
}

/// Whether the name is in its list.
pub(crate) fn is_listed(name: &Name, lists: &[Vec<Name>]) -> bool
    requires { length lists.now ≡ list_count }
    ensures { result ≡ is_among name.now (get_or (lists_in lists.now) (list_of name.now) []) }
{
    is_among(name, &lists[list_of(name)])
}

/// Puts the name into its list. After want of memory the lists are as before.
pub(crate) fn list_name(name: Name, lists: &mut Vec<Vec<Name>>) -> Result<(), AllocError>
    requires { length lists.old.items ≡ list_count }
    ensures { OnOk result (lists_in lists.new.items ≡ set (lists_in lists.old.items) (list_of name) (get_or (lists_in lists.old.items) (list_of name) [] ++ name ∷ [])) }
{
    let place = list_of(&name);
    lists[place].push(name)?;
    Ok(())
}
