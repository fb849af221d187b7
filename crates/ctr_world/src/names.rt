// The names of the tables of undo's items.
ghost use Rattle.std.specs.Prelude.{◌≡◌};
ghost use Rattle.ctr_model.specs.State.{has_name};
ghost use Rattle.ctr_world.specs.Turns.{LastGoes, NameGoes};

use ctr_rec::SlogItem;
use ctr_types::Name;
use ctr_undo::UndoItem;

// Whether a name is one of these.
fn has_name(name: &Name, names: &[Name]) -> bool
    ensures { result ≡ has_name name.now names.now }
{
    names.iter().any(|n| *n == *name)
}

// The last of the names goes. It is told, where it isn't among the others.
fn last_gone(names: &mut Vec<Name>) -> Option<Name>
    ensures { LastGoes names.old.items names.new.items result }
{
    let Some(name) = names.pop() else {
        return None;
    };
    if has_name(&name, names.as_slice()) {
        return None;
    }
    Some(name)
}

/// The name that recovery holds no longer once this is undone, where it held one for that alone; and the name goes from those of what is left.
pub(crate) fn name_gone(names: &mut Vec<Name>, undone: UndoItem) -> Option<Name>
    ensures { NameGoes undone names.old.items names.new.items result }
{
    match undone {
        UndoItem::Slog(item) => match item {
            SlogItem::CreateOf(_, _) | SlogItem::DropOf(_, _) => last_gone(names),
            SlogItem::AllocOf(_, _) | SlogItem::FreeOf(_) => None,
        },
        UndoItem::Orphan(_) => None,
    }
}
