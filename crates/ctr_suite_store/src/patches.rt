// Bytes that are written into the files by hand, and what an opening answers then.
use crate::plain::Plain;
use crate::reading::Patch;
use crate::stops::{Finding, opened};
use crate::words::byte_of;
use ctr_log::OpenError;
use ctr_mem_disk::Image;
use ctr_types::{Damage, File};
use std::alloc::{AllocError, Global};

fn file_name(file: File) -> &'static str {
    match file {
        File::Root => "root",
        File::LogA => "loga",
        File::LogB => "logb",
        File::Pages => "pages",
    }
}

// The bytes of digits in base 16.
fn bytes_of(alloc: Global, digits: &[u8]) -> Result<Vec<u8>, AllocError> {
    let mut bytes = Vec::new(alloc);
    for pair in digits.chunks(2) {
        bytes.push(byte_of(pair))?;
    }
    Ok(bytes)
}

/// Writes the bytes of patches.
pub fn patch(alloc: Global, files: &mut Image, patches: &[Patch]) -> Result<(), AllocError> {
    for patch in patches {
        let bytes = bytes_of(alloc, patch.digits)?;
        files.write(alloc, patch.file, patch.at, &bytes)?;
    }
    Ok(())
}

// A refusal in words.
fn refusal(alloc: Global, error: OpenError) -> Result<String, AllocError> {
    match error {
        OpenError::NoDatabase => format!(in alloc; "no database"),
        OpenError::Damaged(
            Damage {
                file,
                at,
                want,
                got,
            },
        ) => {
            let file = file_name(file);
            format!(in alloc; "damaged {file} {at}, want {want}, got {got}")
        }
        OpenError::Worn { number } => format!(in alloc; "worn {number}"),
        OpenError::Fault => format!(in alloc; "fault"),
        OpenError::OutOfMemory => format!(in alloc; "out of memory"),
    }
}

/// What an opening of these files answers: to how many of the records they fold, or why it is refused.
pub fn answer(alloc: Global, plain: &Plain, files: Image) -> Result<String, AllocError> {
    match opened(alloc, files)? {
        Finding::Folds(told, _counted) => match plain.records_of(told, 0) {
            Some(count) => format!(in alloc; "{count} records"),
            None => format!(in alloc; "another state"),
        },
        Finding::Refused(error) => refusal(alloc, error),
        Finding::Broken(fault) => {
            let told = refusal(alloc, OpenError::from(fault))?;
            format!(in alloc; "opened, then {told}")
        }
    }
}
