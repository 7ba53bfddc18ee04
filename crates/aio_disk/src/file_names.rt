//! Files by their names.
ghost use Rattle.std.specs.Prelude.{◌≡◌, map};
ghost use Rattle.aio_disk.specs.Shelf.{named_file, has_name, have_distinct_names};

// Whether one of the files has this name.
fn has_name(files: &[(String, Vec<u8>)], name: &str) -> bool
    ensures { result ≡ has_name (map named_file files.now) name.now }
{
    for file in files {
        if file.0.as_str() == name {
            return true;
        }
    }
    false
}

/// Whether no two of the files have one name, as a shelf in memory wants it. It compares each
/// name with each.
pub fn have_distinct_names(files: &[(String, Vec<u8>)]) -> bool
    ensures { result ≡ have_distinct_names (map named_file files.now) }
{
    for index in 0..files.len() {
        if has_name(&files[index + 1..], files[index].0.as_str()) {
            return false;
        }
    }
    true
}
