// A visitor of a log that checks each record and lays it into the tables.
ghost use Rattle.std.specs.Prelude.{◌≡◌, ◌<◌, ◌+◌, ◌^◌, MatchResult, [], ◌∷◌, ◌++◌, Ok, IsTrue, IfErr, OnOk, OnErr};
ghost use Rattle.ctr_rec.specs.bytes_Fields.{field};
ghost use Rattle.ctr_base.specs.redo_Overlaid.{overlay_of};
ghost use Rattle.ctr_disk.specs.declared.fault.StoreFault.TheVariants.{Damaged};
ghost use Rattle.ctr_base.specs.log_ReadError.TheVariants.{Store, OutOfMemory as NoMemory};
ghost use Rattle.ctr_store.specs.RecordChecks.{first_record_check, overlay_page_check, record_damage, PassesAs, FailsAs, AllPass, CountsPages, tables_seen};
ghost use Rattle.ctr_base.specs.log_Visits.{visit_of};
ghost use Rattle.ctr_store.specs.Numbers.{HeadsWithin};

use crate::spelling::overlay_of;
use ctr_base::{Lsn, Meta, Origin, ReadError, Visit, Visitor, room_for};
use ctr_disk::{Disk, StoreFault};
use ctr_rec::{BadRecord, Record, decode, expect, get_u8};
use ctr_types::{Damage, File, List, Text};
use std::alloc::Global;
use std::marker::{Model, PhantomData};

/// Where the first record of a file stands.
const FIRST_RECORD: u64 = 29;

/// More records than memory can have, 2^60.
const MOST_RECORDS: usize = 1_152_921_504_606_846_976;

/// The records of a log that it was given, each of which passed its checks, and the tables that they leave.
#[derive(Drop)]
pub struct Seen<D: Disk, O: Origin> {
    alloc: Global,
    pages: u32,
    meta: Meta,
    visits: List<Visit>,
    of: PhantomData<(D, O)>,
}

impl<D: Disk, O: Origin> Model for Seen<D, O> {
    ghost use Rattle.ctr_store.specs.RecordChecks.{SeenLog};

    ghost Value = { SeenLog };

    ghost use Rattle.ctr_store.specs.Inside.{seen_in, IsSeen};

    ghost view = { seen_in };

    ghost invariant = { IsSeen D.tells O.first };
}

// The first byte of a record; of none it is 0.
fn first_byte(bytes: &[u8]) -> u8
    ensures { result ≡ field 1 0 bytes.now }
{
    if bytes.is_empty() {
        return 0;
    }
    get_u8(bytes, 0)
}

// A Checkpoint stands first in its file, and nowhere else.
fn check_place(at: u64, bytes: &[u8]) -> Result<(), BadRecord>
    ensures { result ≡ first_record_check at bytes.now }
{
    let tag = first_byte(bytes);
    if at == FIRST_RECORD {
        return expect(0, 1, tag as u128);
    }
    if tag == 1 {
        return Err(BadRecord {
            at: 0,
            want: 18,
            got: 1,
        });
    }
    Ok(())
}

// A record's overlay is on a counted page.
fn check_counted(pages: u32, len: usize, rec: &Record) -> Result<(), BadRecord>
    ensures { result ≡ overlay_page_check pages len (overlay_of rec.now) }
{
    let Some(overlay) = overlay_of(rec) else {
        return Ok(());
    };
    if overlay.page < pages {
        return Ok(());
    }
    Err(BadRecord {
        at: len
            .saturating_sub(overlay.bytes.as_slice().len())
            .saturating_sub(9) as u64,
        want: (pages as u128).saturating_sub(1),
        got: overlay.page as u128,
    })
}

// A record that passes its checks, behind records that left these tables.
fn read_record<'a>(
    meta: &Meta,
    pages: u32,
    at: u64,
    bytes: &'a [u8],
) -> Result<Record<'a>, BadRecord>
    ensures { MatchResult result (PassesAs pages at meta.now.tables bytes.now) (FailsAs pages at meta.now.tables bytes.now) }
{
    check_place(at, bytes)?;
    let rec = decode(bytes)?;
    check_counted(pages, bytes.len(), &rec)?;
    meta.check(&rec)?;
    Ok(rec)
}

/// Damage of a record that stands at a place of a file.
pub fn damage_at(file: File, at: u64, bad: BadRecord) -> StoreFault
    ensures { result ≡ record_damage file at bad }
{
    StoreFault::Damaged(Damage {
        file,
        at: at.saturating_add(bad.at),
        want: bad.want,
        got: bad.got,
    })
}

impl<D: Disk, O: Origin> Seen<D, O> {
    ghost use Rattle.ctr_base.specs.meta_Tables.{no_tables};

    /// Nothing was given yet, of a log over so many pages. It takes no memory.
    pub fn new(alloc: Global, pages: u32) -> Seen<D, O>
        requires { IsTrue D.tells → CountsPages O.first pages }
        ensures { result ≡ record { visits = []; tables = no_tables; pages = pages } }
    {
        Seen {
            alloc,
            pages,
            meta: Meta::new(alloc),
            visits: List::new(alloc),
            of: PhantomData,
        }
    }

    /// The tables, and the records in their places.
    pub fn into_parts(self) -> (Meta, List<Visit>)
        ensures tables { result.0.tables ≡ self.tables }
        ensures visits { result.1 ≡ self.visits }
        ensures heads { HeadsWithin (2 ^ 63) result.0.tables }
        ensures passed { AllPass self.pages self.visits × (self.tables ≡ tables_seen self.visits) × (IsTrue D.tells → CountsPages O.first self.pages) }
    {
        let Seen {
            alloc: _,
            pages: _,
            meta,
            visits,
            of: _,
        } = self;
        (meta, visits)
    }

    // Adds a record that passed.
    fn add(&mut self, visit: Visit, rec: &Record) -> Result<(), ReadError>
        requires { PassesAs self.old.pages visit.at self.old.tables visit.bytes rec.now }
        ensures given { OnOk result (self.new.visits ≡ self.old.visits ++ visit ∷ []) }
        ensures left { OnErr result (self.new.visits ≡ self.old.visits) }
        ensures pages { self.new.pages ≡ self.old.pages }
        ensures refused { IfErr result (λ e. e ≡ NoMemory) }
    {
        if self.visits.len() >= MOST_RECORDS {
            return Err(ReadError::OutOfMemory);
        }
        let room = room_for(rec);
        self.meta.reserve(room.opens, room.items)?;
        self.visits.push(visit)?;
        self.meta.apply(rec);
        Ok(())
    }

    // The record as it is kept.
    fn keep(
        &mut self,
        lsn: Lsn,
        file: File,
        at: u64,
        bytes: &[u8],
        rec: &Record,
    ) -> Result<(), ReadError>
        requires { PassesAs self.old.pages at self.old.tables bytes.now rec.now }
        ensures given { OnOk result (self.new.visits ≡ self.old.visits ++ visit_of lsn file at bytes.now ∷ []) }
        ensures left { OnErr result (self.new.visits ≡ self.old.visits) }
        ensures pages { self.new.pages ≡ self.old.pages }
        ensures refused { IfErr result (λ e. e ≡ NoMemory) }
    {
        let bytes = Text::from_slice(self.alloc, bytes)?;
        self.add(
            Visit {
                lsn,
                file,
                at,
                bytes,
            },
            rec,
        )
    }
}

impl<D: Disk, O: Origin> Visitor for Seen<D, O> {
    ghost use Rattle.ctr_store.specs.RecordChecks.{HasSeen, RefusesVisit, CountsPages};
    ghost use Rattle.std.specs.Prelude.{IsTrue};

    type E = ReadError;

    ghost has_seen = { HasSeen (λ pages. IsTrue D.tells → CountsPages O.first pages) };

    ghost refuses = { RefusesVisit (λ pages. IsTrue D.tells → CountsPages O.first pages) };

    fn visit(&mut self, lsn: Lsn, file: File, at: u64, bytes: &[u8]) -> Result<(), ReadError> {
        match read_record(&self.meta, self.pages, at, bytes) {
            Ok(rec) => self.keep(lsn, file, at, bytes, &rec),
            Err(bad) => Err(ReadError::Store(damage_at(file, at, bad))),
        }
    }
}
