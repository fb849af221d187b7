// The bytes of a source.
ghost use Rattle.std.specs.Prelude.{◌≡◌, ◌+◌, ◌<◌, ◌≤◌, ◌++◌, ◌↔◌, [], IsTrue, length, vec_len, IfOk, IfErr, OnErr};
ghost use Rattle.ctr_model.specs.Grammar.{most_bytes};
ghost use Rattle.ctr_types.specs.Faults.{HasFault};
ghost use Rattle.ctr_script.specs.declared.error.ScriptError.TheVariants.{ReadFault};
ghost use Rattle.ctr_script.specs.Reading.{StopsPiece, StopsReading};

use crate::ScriptError;
use ctr_io::Source;
use std::alloc::{AllocError, Global};

/// The most bytes that a script has.
pub const MOST_BYTES: usize = 16_777_216;

/// How many bytes are taken at a time.
const PIECE: usize = 65_536;

// Takes a piece behind the bytes that were taken, and says how many bytes it has.
fn take_piece<S: Source>(
    source: &mut S,
    piece: &mut [u8],
    bytes: &mut Vec<u8>,
) -> Result<usize, ScriptError>
    requires { 0 < length piece.old }
    ensures told { IsTrue S.tells → IfOk result (λ n. bytes.old.items ++ S.left source.old ≡ bytes.new.items ++ S.left source.new) }
    ensures end { IsTrue S.tells → IfOk result (λ n. n ≡ 0 → S.left source.old ≡ []) }
    ensures more { IfOk result (λ n. (vec_len bytes.new ≡ vec_len bytes.old + n) × (n ≤ length piece.old)) }
    ensures taken { IsTrue S.tells → OnErr result (length (S.left source.old) ≤ length (S.left source.new) + length piece.old) }
    ensures stops { IfErr result StopsPiece }
    ensures faults { HasFault ReadFault (S.faults_of source.old) (S.faults_of source.new) result }
{
    let n = source.take(piece)?;
    bytes.extend_from_slice(&piece[..n])?;
    Ok(n)
}

// Takes the next piece where there is room for one, and says how many bytes it has.
fn next_piece<S: Source>(
    source: &mut S,
    piece: &mut [u8],
    bytes: &mut Vec<u8>,
) -> Result<usize, ScriptError>
    requires piece { 0 < length piece.old }
    requires room { vec_len bytes.old ≤ most_bytes }
    ensures told { IsTrue S.tells → IfOk result (λ n. bytes.old.items ++ S.left source.old ≡ bytes.new.items ++ S.left source.new) }
    ensures end { IsTrue S.tells → IfOk result (λ n. n ≡ 0 → S.left source.old ≡ []) }
    ensures more { IfOk result (λ n. (vec_len bytes.new ≡ vec_len bytes.old + n) × (vec_len bytes.new ≤ most_bytes + 1)) }
    ensures taken { IsTrue S.tells → OnErr result
        (length (S.left source.old) + vec_len bytes.old ≤ length (S.left source.new) + (most_bytes + 1)) }
    ensures stops { IfErr result StopsPiece }
    ensures faults { HasFault ReadFault (S.faults_of source.old) (S.faults_of source.new) result }
{
    let room = piece.len().min(MOST_BYTES + 1 - bytes.len());
    take_piece(source, &mut piece[..room], bytes)
}

// So many zeros.
fn zeros(alloc: Global, len: usize) -> Result<Vec<u8>, AllocError>
    ensures { IfOk result (λ v. vec_len v ≡ len) }
{
    vec![in alloc; 0u8; len]
}

/// All bytes of a source, unless it has more than the longest script.
pub fn read_bytes<S: Source>(alloc: Global, source: &mut S) -> Result<Vec<u8>, ScriptError>
    ensures read { IsTrue S.tells → IfOk result (λ bytes. bytes.items ≡ S.left source.old) }
    ensures short { IfOk result (λ bytes. vec_len bytes ≤ most_bytes) }
    ensures stops { IfErr result (StopsReading S.Source source.old) }
    ensures taken { IsTrue S.tells → length (S.left source.old) ≤ length (S.left source.new) + 16777217 }
    ensures faults { HasFault ReadFault (S.faults_of source.old) (S.faults_of source.new) result }
{
    let mut bytes = Vec::new(alloc);
    let mut piece = zeros(alloc, PIECE)?;
    while bytes.len() <= MOST_BYTES {
        let n = next_piece(source, &mut piece, &mut bytes)?;
        if n == 0 {
            return Ok(bytes);
        }
    }
    Err(ScriptError::TooLong)
}
