// Many things, one behind another.
ghost use Rattle.std.specs.Prelude.{◌≡◌, List, ℕ};
ghost use Rattle.std.specs.List.{flat_map};
ghost use Rattle.ctr_print.specs.Prints.{PrintsMore};

use crate::printer::Printer;
use ctr_io::Sink;

/// A form in which things of a type are printed.
pub trait Form<T> {
    ghost text: { T → List ℕ };

    fn put<K: Sink>(out: &mut Printer<K>, item: &T)
        ensures { PrintsMore K.Sink (text item.now) out.old out.new };
}

/// Puts each item in this form.
pub fn put_each<F: Form<T>, T, K: Sink>(out: &mut Printer<K>, items: &[T])
    ensures { PrintsMore K.Sink (flat_map F.text items.now) out.old out.new }
{
    for item in items {
        F::put(out, item);
    }
}
