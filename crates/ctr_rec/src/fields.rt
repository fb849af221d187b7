// Reading the parts of a record. The checks stand in the order in which they are told.
ghost use Rattle.std.specs.Prelude.{◌≡◌, ◌≢◌, ◌≤◌, ◌<◌, ◌+◌, ◌⊎◌, length, Ok, Err, IfOk, IfErr};
ghost use Rattle.ctr_bytes.specs.Fields.{field};
ghost use Rattle.ctr_rec.specs.declared.record.Parts.{Parts};
ghost use Rattle.ctr_rec.specs.declared.table.Tag.{Tag};
ghost use Rattle.ctr_rec.specs.Table.{bytes_of_field, most, layout, flag_at};
ghost use Rattle.ctr_rec.specs.Parts.{PartsFit};
ghost use Rattle.ctr_rec.specs.Spelling.{parts_bytes};
ghost use Rattle.ctr_rec.specs.Damage.{wrong, expect, at_most, flag_check, inside_check, overlay_check, length_wanted, overlay_in, bound_check, checks, Answers};

use crate::{BadRecord, Bytes, Field, Layout, Overlay, Parts, Tag};
use ctr_bytes::{get_u8, get_u16, get_u32, get_u64};

impl Layout {
    /// Where the flag stands.
    fn flag_at(&self) -> usize
        ensures { result ≡ flag_at self.now }
    {
        1 + self.first.width() + self.second.width()
    }
}

/// One number is wanted at a place.
pub fn expect(at: u64, want: u128, got: u128) -> Result<(), BadRecord>
    ensures { result ≡ expect at want got }
{
    if want == got {
        Ok(())
    } else {
        Err(BadRecord { at, want, got })
    }
}

/// A number at a place is at most so much.
#[tactic(auto, unfolding(crate::specs::Damage::at_most))]
pub fn at_most(at: usize, bound: u64, got: u64) -> Result<(), BadRecord>
    ensures { result ≡ at_most at bound got }
{
    if bound < got {
        return Err(BadRecord {
            at: at as u64,
            want: bound as u128,
            got: got as u128,
        });
    }
    Ok(())
}

#[tactic(auto, unfolding(crate::specs::Damage::flag_check))]
fn check_flag(layout: &Layout, bytes: &[u8]) -> Result<(), BadRecord>
    ensures { result ≡ flag_check layout.now bytes.now }
{
    let at = layout.flag_at();
    if at < bytes.len() {
        return expect(at as u64, layout.flag as u128, get_u8(bytes, at) as u128);
    }
    Ok(())
}

#[tactic(auto, unfolding(crate::specs::Damage::inside_check))]
fn check_inside(at: u64, offset: u16, len: u16) -> Result<(), BadRecord>
    ensures { result ≡ inside_check at offset len }
{
    let end = offset as u32 + len as u32;
    if 4096 < end {
        return Err(BadRecord {
            at,
            want: 4096,
            got: end as u128,
        });
    }
    if len == 0 {
        return Err(BadRecord {
            at,
            want: 1,
            got: 0,
        });
    }
    Ok(())
}

#[tactic(auto, unfolding(crate::specs::Damage::overlay_check))]
fn check_overlay(layout: &Layout, bytes: &[u8]) -> Result<(), BadRecord>
    ensures { result ≡ overlay_check layout.now bytes.now }
{
    let at = layout.flag_at();
    if layout.flag == 0 || bytes.len() < at + 9 {
        return Ok(());
    }
    check_inside(at as u64, get_u16(bytes, at + 5), get_u16(bytes, at + 7))
}

#[tactic(auto, unfolding(crate::specs::Damage::length_wanted))]
fn wanted(layout: &Layout, bytes: &[u8]) -> usize
    ensures { result ≡ length_wanted layout.now bytes.now }
{
    let at = layout.flag_at();
    if layout.flag == 0 {
        return at + 1;
    }
    if bytes.len() < at + 9 {
        return at + 10;
    }
    at + 9 + get_u16(bytes, at + 7) as usize
}

fn number(of: Field, at: usize, bytes: &[u8]) -> u64
    requires { at + bytes_of_field of ≤ length bytes.now }
    ensures { result ≡ field (bytes_of_field of) at bytes.now }
{
    match of {
        Field::Nothing => 0,
        Field::Entry => get_u8(bytes, at) as u64,
        Field::Page => get_u32(bytes, at) as u64,
        Field::Xid => get_u64(bytes, at),
    }
}

#[tactic(auto, unfolding(crate::specs::Damage::bound_check))]
fn check_bound(of: Field, at: usize, bytes: &[u8]) -> Result<(), BadRecord>
    requires { at + bytes_of_field of ≤ length bytes.now }
    ensures { result ≡ bound_check of at bytes.now }
{
    at_most(at, of.most(), number(of, at, bytes))
}

#[tactic(auto, unfolding(crate::specs::Damage::checks))]
fn check(layout: &Layout, bytes: &[u8]) -> Result<(), BadRecord>
    ensures { result ≡ checks layout.now bytes.now }
{
    check_flag(layout, bytes)?;
    check_overlay(layout, bytes)?;
    expect(0, wanted(layout, bytes) as u128, bytes.len() as u128)?;
    check_bound(layout.first, 1, bytes)?;
    check_bound(layout.second, 1 + layout.first.width(), bytes)
}

#[tactic(auto, unfolding(crate::specs::Damage::overlay_in))]
fn overlay_of<'a>(layout: &Layout, bytes: &'a [u8]) -> Option<Overlay<'a>>
    requires { layout.now.flag ≢ 0 → flag_at layout.now + 9 ≤ length bytes.now }
    ensures { result ≡ overlay_in layout.now bytes.now }
{
    let at = layout.flag_at();
    if layout.flag == 0 {
        return None;
    }
    Some(Overlay {
        page: get_u32(bytes, at + 1),
        clear: layout.flag == 2,
        offset: get_u16(bytes, at + 5),
        bytes: Bytes::new(&bytes[at + 9..]),
    })
}

fn parts_in<'a>(tag: Tag, bytes: &'a [u8]) -> Parts<'a>
    requires number { (layout tag).number ≡ field 1 0 bytes.now }
    requires checked { checks (layout tag) bytes.now ≡ Ok tt }
    ensures bytes { parts_bytes result ≡ bytes.now }
    ensures fits { PartsFit result }
{
    let layout = tag.layout();
    let second = 1 + layout.first.width();
    Parts {
        tag,
        first: number(layout.first, 1, bytes),
        second: number(layout.second, second, bytes),
        overlay: overlay_of(&layout, bytes),
    }
}

/// The parts in bytes that begin with this byte.
pub fn decode_fields<'a>(first: u8, bytes: &'a [u8]) -> Result<Parts<'a>, BadRecord>
    requires { first ≡ field 1 0 bytes.now }
    ensures found { IfOk result (λ p. PartsFit p × (parts_bytes p ≡ bytes.now)) }
    ensures only { (p : Parts) → PartsFit p → parts_bytes p ≡ bytes.now → result ≡ Ok p }
    ensures differs { IfErr result (λ e. e.want ≢ e.got) }
    ensures tag { (first < 2) ⊎ (18 < first) → result ≡ Err (wrong 0 18 first) }
    ensures exact { (t : Tag) → (layout t).number ≡ first → Answers result (checks (layout t) bytes.now) }
{
    let Some(tag) = Tag::numbered(first) else {
        return Err(BadRecord {
            at: 0,
            want: 18,
            got: first as u128,
        });
    };
    check(&tag.layout(), bytes)?;
    Ok(parts_in(tag, bytes))
}
