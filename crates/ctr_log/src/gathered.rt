// A visitor that keeps what it is given.
ghost use Rattle.std.specs.Prelude.{◌≡◌, []};

use crate::log::Lsn;
use crate::reading::ReadError;
use crate::visitor::{Visit, Visitor};
use ctr_types::{File, List, Text};
use std::alloc::Global;

/// The records that were given, in order.
#[derive(Debug, Drop)]
pub struct Gathered {
    alloc: Global,
    visits: List<Visit>,
}

impl Gathered {
    /// Nothing was given yet.
    pub fn new(alloc: Global) -> Gathered
        ensures { result.visits ≡ [] }
    {
        Gathered {
            alloc,
            visits: List::new(alloc),
        }
    }

    pub fn visits(&self) -> &[Visit]
        ensures { result.now ≡ self.now.visits }
    {
        self.visits.as_slice()
    }

    pub fn into_visits(self) -> List<Visit>
        ensures { result ≡ self.visits }
    {
        let Gathered { alloc: _, visits } = self;
        visits
    }
}

impl Visitor for Gathered {
    ghost use Rattle.ctr_log.specs.declared.reading.ReadError.TheVariants.{OutOfMemory};

    type E = ReadError;

    ghost has_seen = { λ g visits. g.visits ≡ visits };

    ghost refuses = { λ _ _ e. e ≡ OutOfMemory };

    fn visit(&mut self, lsn: Lsn, file: File, at: u64, bytes: &[u8]) -> Result<(), ReadError> {
        let bytes = Text::from_slice(self.alloc, bytes)?;
        self.visits.push(Visit {
            lsn,
            file,
            at,
            bytes,
        })?;
        Ok(())
    }
}
