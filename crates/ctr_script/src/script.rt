// The lines of a script.
ghost use Rattle.std.specs.Prelude.{◌≡◌, ◌∷◌, ◌<◌, ◌≤◌, ◌+◌, ℕ, List, IsTrue, length, IfNone, IfSome, IfOk, OnOk, IfErr};
ghost use Rattle.std.specs.List.{AllByRecursion};
ghost use Rattle.ctr_types.specs.declared.statement.Line.{Line};
ghost use Rattle.ctr_types.specs.Faults.{HasFault};
ghost use Rattle.ctr_model.specs.Grammar.{HasNoEnd};
ghost use Rattle.ctr_model.specs.Language.{SpellsLine};
ghost use Rattle.ctr_model.specs.Lines.{lines_of, IsWritten};
ghost use Rattle.ctr_script.specs.declared.error.ScriptError.TheVariants.{ReadFault};
ghost use Rattle.ctr_script.specs.Added.{IsFirstLine};
ghost use Rattle.ctr_script.specs.Written.{IsBeforeEnd, AddsSaid, LineStops, IsRefusedBy, IsShortText, ErrorHasCause, DecideAnswer};

use crate::bytes::read_bytes;
use crate::error::ScriptError;
use crate::laws::one_script;
use crate::line::said;
use ctr_io::Source;
use ctr_types::{Line, List, Script};
use std::alloc::Global;

// The bytes in front of the first line end.
fn line_len(bytes: &[u8]) -> Option<usize>
    ensures none { IfNone result (HasNoEnd bytes.now) }
    ensures some { IfSome result (IsFirstLine bytes.now) }
{
    for (i, byte) in bytes.iter().enumerate() {
        if *byte == b'\n' {
            return Some(i);
        }
    }
    None
}

// A line without a CR at its end.
fn before_end(whole: &[u8]) -> &[u8]
    ensures same { IsBeforeEnd whole.now result.now }
{
    match whole.split_last() {
        Some((last, front)) => { if *last == b'\r' { front } else { whole } }
        None => whole,
    }
}

// The first line, and the bytes behind its end.
fn first_line(bytes: &[u8]) -> (&[u8], &[u8])
    requires { 0 < length bytes.now }
    ensures lines { lines_of bytes.now ≡ result.0.now ∷ lines_of result.1.now }
    ensures less { length result.1.now < length bytes.now }
{
    let Some(len) = line_len(bytes) else {
        return bytes.split_at(bytes.len());
    };
    let (whole, end) = bytes.split_at(len);
    let (_, behind) = end.split_at(1);
    (before_end(whole), behind)
}

// Adds what a line says.
fn add(alloc: Global, line: &[u8], number: u64, lines: &mut List<Line>) -> Result<(), ScriptError>
    ensures found { OnOk result (AddsSaid line.now lines.old lines.new) }
    ensures refused { IfErr result (LineStops line.now number) }
{
    if let Some(one) = said(alloc, line, number)? {
        lines.push(one)?;
    }
    Ok(())
}

// The script that bytes are.
fn script_of(alloc: Global, bytes: &[u8]) -> Result<Script, ScriptError>
    ensures read { IfOk result (λ s. IsWritten SpellsLine bytes.now s.lines) }
    ensures refused { IfErr result (IsRefusedBy bytes.now) }
{
    let mut lines = List::new(alloc);
    let mut rest = bytes;
    let mut number = 1;
    while !rest.is_empty() {
        let (line, behind) = first_line(rest);
        add(alloc, line, number, &mut lines)?;
        rest = behind;
        number += 1;
    }
    Ok(Script { lines })
}

/// Takes a source to its end and parses it: a script. At most 16,777,217 bytes
/// are taken.
pub fn read_script<S: Source>(alloc: Global, source: &mut S) -> Result<Script, ScriptError>
    ensures read { IsTrue S.tells → IfOk result (λ s. IsShortText (S.left source.old) s.lines) }
    // What was taken is a script, also where the source doesn't tell.
    ensures is_script { IfOk result (λ s. (bytes : List ℕ) × IsShortText bytes s.lines) }
    ensures reason { IfErr result (ErrorHasCause S.Source source.old) }
    // What the source has left decides the answer.
    ensures only { IsTrue S.tells → DecideAnswer (S.left source.old) result }
    ensures sessions { IfOk result (λ s. AllByRecursion (λ l. l.session ≤ 8) s.lines) }
    ensures taken { IsTrue S.tells → length (S.left source.old) ≤ length (S.left source.new) + 16777217 }
    ensures faults { HasFault ReadFault (S.faults_of source.old) (S.faults_of source.new) result }
{
    one_script();
    let bytes = read_bytes(alloc, source)?;
    script_of(alloc, bytes.as_slice())
}
