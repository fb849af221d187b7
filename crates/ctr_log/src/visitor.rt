// Who reads the log: a visitor is given its records one after another.
ghost use Rattle.std.specs.Prelude.{◌≡◌, List, [], ◌∷◌, IfErr, OnOk};
ghost use Rattle.ctr_log.specs.declared.visitor.Visit.{Visit};
ghost use Rattle.ctr_log.specs.Visits.{visit_of, IsGiven};

use crate::log::Lsn;
use crate::reading::ReadError;
use ctr_home::{Failed, StoreFault};
use ctr_types::{File, OutOfMemory, Text};
use std::alloc::AllocError;

/// A record of the log, where it stands: its number, its file, the place of its first byte there, and
/// its bytes.
#[derive(Debug, Drop)]
pub struct Visit {
    pub lsn: Lsn,
    pub file: File,
    pub at: u64,
    pub bytes: Text,
}

/// Is given the records of the log in order.
pub trait Visitor {
    /// How it tells that reading ended early.
    type E: From<StoreFault> + From<OutOfMemory>;

    /// It may have been given these, in order, where it stands so.
    ghost has_seen: { Self → List Visit → Type 0 };

    /// What it may refuse a record with, behind those that it has been given.
    ghost refuses: { List Visit → Visit → Self.E → Type 0 };

    /// Is given a record: its number, the file and the place of its first byte, its bytes. A record
    /// that it refuses ends the reading, and leaves the visitor in any state.
    fn visit(&mut self, lsn: Lsn, file: File, at: u64, bytes: &[u8]) -> Result<(), Self::E>
        ensures given { OnOk result (IsGiven has_seen self.old self.new (visit_of lsn file at bytes.now ∷ [])) }
        ensures because { (before : List Visit) → has_seen self.old before → IfErr result (refuses before (visit_of lsn file at bytes.now)) };
}

/// Reading for a visitor ended early.
#[derive(Debug)]
pub enum VisitError<E> {
    /// The log's end wasn't found.
    Read(ReadError),
    /// The visitor refused a record with this.
    Refused(E),
}

impl<E> From<ReadError> for VisitError<E> {
    ghost use Rattle.ctr_log.specs.declared.visitor.VisitError.TheVariants.{Read};

    ghost from_gives = { λ s e. e ≡ Read s };

    fn from(error: ReadError) -> VisitError<E> {
        VisitError::Read(error)
    }
}

impl<E> From<Failed> for VisitError<E> {
    ghost use Rattle.ctr_home.specs.disk_StoreFault.TheVariants.{Fault};
    ghost use Rattle.ctr_log.specs.declared.reading.ReadError.TheVariants.{Store};
    ghost use Rattle.ctr_log.specs.declared.visitor.VisitError.TheVariants.{Read};

    ghost from_gives = { λ _ e. e ≡ Read (Store Fault) };

    fn from(_: Failed) -> VisitError<E> {
        VisitError::Read(ReadError::Store(StoreFault::Fault))
    }
}

impl<E> From<AllocError> for VisitError<E> {
    ghost use Rattle.ctr_log.specs.declared.reading.ReadError.TheVariants.{OutOfMemory};
    ghost use Rattle.ctr_log.specs.declared.visitor.VisitError.TheVariants.{Read};

    ghost from_gives = { λ _ e. e ≡ Read OutOfMemory };

    fn from(_: AllocError) -> VisitError<E> {
        VisitError::Read(ReadError::OutOfMemory)
    }
}
