//! The name of a stream type that was probably meant.
ghost use Rattle.std.specs.Prelude.{◌≡◌, map, option_map};
ghost use Rattle.mdmp_words.specs.NearTypes.{is_near, nearest_among, nearest_type, stem};

/// The names of types, as words of `copy`.
const TYPE_WORDS: [&str; 22] = [
    "threads",
    "modules",
    "memory",
    "exception",
    "system",
    "memory64",
    "unloaded",
    "regions",
    "threadnames",
    "UnusedStream",
    "ThreadListStream",
    "ModuleListStream",
    "MemoryListStream",
    "ExceptionStream",
    "SystemInfoStream",
    "Memory64ListStream",
    "CommentStreamA",
    "CommentStreamW",
    "UnloadedModuleListStream",
    "MiscInfoStream",
    "MemoryInfoListStream",
    "ThreadNamesStream",
];

/// The name of a type that has the letters of a word, of either case, but for one `s` at the end.
pub fn nearest_type(word: &str) -> Option<&'static str>
    ensures { option_map (λ name. name.now) result ≡ nearest_type word.now }
{
    let names: [&str; 22] = TYPE_WORDS;
    nearest_among(word, names.as_slice())
}

/// The first of these names that is near a word.
fn nearest_among<'a>(word: &str, names: &[&'a str]) -> Option<&'a str>
    ensures { option_map (λ name. name.now) result ≡ nearest_among word.now (map (λ name. name.now) names.now) }
{
    for name in names {
        if is_near(word, *name) {
            return Some(*name);
        }
    }
    None
}

/// Whether two words have the same letters, of either case, but for one `s` at the end.
fn is_near(word: &str, name: &str) -> bool
    ensures { result ≡ is_near word.now name.now }
{
    stem(word).eq_ignore_ascii_case(stem(name))
}

/// A word without the letter `s` at its end, if there is one.
fn stem(word: &str) -> &[u8]
    ensures { result.now ≡ stem word.now }
{
    let bytes = word.as_bytes();
    let length = bytes.len();
    if length > 0 && bytes[length - 1].to_ascii_lowercase() == b's' {
        return &bytes[..length - 1];
    }
    bytes
}
