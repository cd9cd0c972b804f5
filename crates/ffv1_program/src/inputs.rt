//! The sources of several paths, in their order.
ghost use Rattle.std.specs.Prelude.{◌≡◌, ◌↔◌, length, map, vec_len, IfOk, IfErr, IsTrue};
ghost use Rattle.std.specs.List.{AllZip, Contains};

use crate::files::FileSystem;
use ffv1_commands::CliFault;
use std::alloc::{AllocError, Global};

/// Whether a word is one of these.
pub(crate) fn is_among(word: &str, words: &[&str]) -> bool
    ensures { IsTrue result ↔ Contains (map (λ one. one.now) words.now) word.now }
{
    words.contains(&word)
}

/// The files of paths, in their order, none of which is opened yet. It fails if an allocation fails.
pub(crate) fn sources_of<'a, F: FileSystem<'a>>(
    alloc: Global,
    files: &F,
    paths: &[&'a str],
) -> Result<Vec<F::Device>, AllocError>
    ensures bytes { IfOk result (λ sources. map (λ source. (F.Device.log source).remaining) sources.items
        ≡ map (λ path. (F.files files.now).bytes_at path.now) paths.now) }
    ensures at { IfOk result (λ sources. AllZip (λ path source. (F.files files.now).is_device_at path.now source) paths.now sources.items) }
    ensures count { IfOk result (λ sources. vec_len sources ≡ length paths.now) }
{
    let mut sources = Vec::with_capacity(alloc, paths.len())?;
    for path in paths {
        sources.push(files.device(path))?;
    }
    Ok(sources)
}

/// The same, each through a buffer of its own. Returns `Memory` if an allocation fails.
pub(crate) fn buffered_of<'a, F: FileSystem<'a>>(
    alloc: Global,
    files: &F,
    paths: &[&'a str],
) -> Result<Vec<F::Buffered>, CliFault>
    ensures bytes { IfOk result (λ sources. map (λ source. (F.Buffered.log source).remaining) sources.items
        ≡ map (λ path. (F.files files.now).bytes_at path.now) paths.now) }
    ensures at { IfOk result (λ sources. AllZip (λ path source. (F.files files.now).is_buffered_at path.now source) paths.now sources.items) }
    ensures count { IfOk result (λ sources. vec_len sources ≡ length paths.now) }
    ensures refused { IfErr result (λ fault. fault ≡ CliFault.Memory) }
{
    let mut sources = Vec::with_capacity(alloc, paths.len())?;
    for path in paths {
        sources.push(files.buffered(alloc, path)?)?;
    }
    Ok(sources)
}
