// Writing a record.
ghost use Rattle.std.specs.Prelude.{◌≡◌, ◌≤◌, ◌<◌, ◌+◌, ◌^◌, ◌++◌, List, ℕ, length, drop};
ghost use Rattle.ctr_bytes.specs.Fields.{with_field};
ghost use Rattle.ctr_rec.specs.declared.record.Record.{Record};
ghost use Rattle.ctr_rec.specs.Table.{bytes_of_field, most, layout, flag_at};
ghost use Rattle.ctr_rec.specs.Parts.{OverlayFits, PartsFit};
ghost use Rattle.ctr_rec.specs.Read.{record_in};
ghost use Rattle.ctr_rec.specs.Records.{IsRecord};
ghost use Rattle.ctr_rec.specs.Spelling.{with_overlay, overlay_len, parts_bytes, checkpoint_bytes, record_bytes};

use crate::record::to_form;
use crate::{Field, Form, Overlay, Parts, Record};
use ctr_bytes::{put_u8, put_u16, put_u32, put_u64};

fn put(into: &mut [u8], at: usize, of: Field, number: u64)
    requires room { at + bytes_of_field of ≤ length into.old }
    requires number { number ≤ most of }
    ensures put { into.new ≡ with_field (bytes_of_field of) at number into.old }
    ensures long { length into.new ≡ length into.old }
{
    match of {
        Field::Nothing => {}
        Field::Entry => put_u8(into, at, number as u8),
        Field::Page => put_u32(into, at, number as u32),
        Field::Xid => put_u64(into, at, number),
    }
}

fn copy(into: &mut [u8], at: usize, bytes: &[u8])
    requires { at + length bytes.now ≤ length into.old }
    ensures long { length into.new ≡ length into.old }
    ensures put { (front old : List ℕ) → at ≡ length front → into.old ≡ front ++ drop at old → into.new ≡ front ++ bytes.now ++ drop (at + length bytes.now) old }
{
    into[at..at + bytes.len()].copy_from_slice(bytes);
}

fn put_overlay(into: &mut [u8], at: usize, flag: u8, overlay: &Option<Overlay>) -> usize
    requires fits { OverlayFits flag overlay.now }
    requires room { at + overlay_len overlay.now ≤ length into.old }
    ensures end { result ≡ at + overlay_len overlay.now }
    ensures put { (front old : List ℕ) → at ≡ length front → into.old ≡ front ++ drop at old → into.new ≡ with_overlay front flag overlay.now ++ drop result old }
{
    put_u8(into, at, flag);
    let Some(overlay) = overlay else {
        return at + 1;
    };
    let bytes = overlay.bytes.as_slice();
    put_u32(into, at + 1, overlay.page);
    put_u16(into, at + 5, overlay.offset);
    put_u16(into, at + 7, bytes.len() as u16);
    copy(into, at + 9, bytes);
    at + 9 + bytes.len()
}

fn encode_fields(parts: &Parts, into: &mut [u8]) -> usize
    requires fits { PartsFit parts.now }
    requires room { length (parts_bytes parts.now) ≤ length into.old }
    ensures number { result ≡ length (parts_bytes parts.now) }
    ensures bytes { into.new ≡ parts_bytes parts.now ++ drop result into.old }
{
    let layout = parts.tag.layout();
    let second = 1 + layout.first.width();
    put_u8(into, 0, layout.number);
    put(into, 1, layout.first, parts.first);
    put(into, second, layout.second, parts.second);
    put_overlay(
        into,
        second + layout.second.width(),
        layout.flag,
        &parts.overlay,
    )
}

fn encode_lists(next: u64, lists: &[u8], into: &mut [u8]) -> usize
    requires room { length (checkpoint_bytes next lists.now) ≤ length into.old }
    ensures number { result ≡ length (checkpoint_bytes next lists.now) }
    ensures bytes { into.new ≡ checkpoint_bytes next lists.now ++ drop result into.old }
{
    put_u8(into, 0, 1);
    put_u64(into, 1, next);
    copy(into, 9, lists);
    put_u8(into, 9 + lists.len(), 0);
    10 + lists.len()
}

/// Writes the bytes of a record to the front, and tells how many they are. It takes no memory.
pub fn encode(rec: &Record, into: &mut [u8]) -> usize
    requires fits { IsRecord rec.now }
    requires room { length (record_bytes rec.now) ≤ length into.old }
    ensures number { result ≡ length (record_bytes rec.now) }
    ensures bytes { into.new ≡ record_bytes rec.now ++ drop result into.old }
{
    match to_form(rec) {
        Form::Lists { next, lists } => encode_lists(next, lists.as_slice(), into),
        Form::Fields(parts) => encode_fields(&parts, into),
    }
}

/// Two records have different bytes.
pub fn one_form()
    ensures { (a b : Record) → IsRecord a → IsRecord b → record_bytes a ≡ record_bytes b → a ≡ b }
{}

/// The bytes of a record tell it: what stands in them is the record.
pub fn bytes_tell()
    ensures { (r : Record) → IsRecord r → record_in (record_bytes r) ≡ r }
{}
