//! Words that name types of streams.
ghost use Rattle.std.specs.Prelude.{◌≡◌};
ghost use Rattle.mdmp_words.specs.TypeNames.{type_in_header, type_of_records, type_named};

use crate::number_words::decimal32_of;

/// The stream type that a word names: by what its records are, by its name in minidumpapiset.h, or by its
/// number.
pub(crate) fn type_of(word: &str) -> Option<u32>
    ensures { result ≡ type_named word.now }
{
    if let Some(stream_type) = type_of_records(word) {
        return Some(stream_type);
    }
    if let Some(stream_type) = type_in_header(word) {
        return Some(stream_type);
    }
    decimal32_of(word)
}

/// The type of the streams that have such records, or one.
fn type_of_records(word: &str) -> Option<u32>
    ensures { result ≡ type_of_records word.now }
{
    match word {
        "threads" => Some(3),
        "modules" => Some(4),
        "memory" => Some(5),
        "exception" => Some(6),
        "system" => Some(7),
        "memory64" => Some(9),
        "unloaded" => Some(14),
        "regions" => Some(16),
        "threadnames" => Some(24),
        _ => None,
    }
}

/// The type that `MINIDUMP_STREAM_TYPE` has under this name, if its streams are copied.
fn type_in_header(word: &str) -> Option<u32>
    ensures { result ≡ type_in_header word.now }
{
    match word {
        "UnusedStream" => Some(0),
        "ThreadListStream" => Some(3),
        "ModuleListStream" => Some(4),
        "MemoryListStream" => Some(5),
        "ExceptionStream" => Some(6),
        "SystemInfoStream" => Some(7),
        "Memory64ListStream" => Some(9),
        "CommentStreamA" => Some(10),
        "CommentStreamW" => Some(11),
        "UnloadedModuleListStream" => Some(14),
        "MiscInfoStream" => Some(15),
        "MemoryInfoListStream" => Some(16),
        "ThreadNamesStream" => Some(24),
        _ => None,
    }
}
