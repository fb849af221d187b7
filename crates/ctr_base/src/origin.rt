// What a base was opened on, named by a type.
ghost use Rattle.std.specs.Prelude.{[]};
ghost use Rattle.ctr_disk.specs.Image.{Image};

use std::marker::Brand;

/// What a read of a disk gave when it was opened: a type parameter names it, so that what is promised of a disk that
/// was sound then can be said of each later state, and a disk that wasn't sound can be opened too.
pub trait Origin {
    ghost first: { Image };
}

impl Origin for Brand {
    ghost first = { record { root = []; log_a = []; log_b = []; pages = [] } };
}
