//! The parts of a path.

ghost use Rattle.std.specs.Prelude.{◌≡◌, ◌≢◌, ◌∷◌, ◌<◌, [], ℕ, length, slice_index, None, IfSome};
ghost use Rattle.ntfs_directory.specs.Paths.{path_parts};

/// The first part of a path, and what stands behind it.
pub(crate) fn first_part(path: &str) -> Option<(&str, &str)>
    ensures none { result ≡ None → path_parts path.now ≡ [] }
    ensures part { IfSome result (λ found. path_parts path.now ≡ found.0.now ∷ path_parts found.1.now) }
    ensures shorter { IfSome result (λ found. length found.1.now < length path.now) }
{
    let mut rest = path;
    'slashes: loop {
        match rest.split_once('/') {
            None => return last_part(rest),
            Some((part, behind)) => {
                if !part.is_empty() {
                    return Some((part, behind));
                }
                rest = behind;
            }
        }
    }
}

/// The only part of a path without a slash, and nothing behind it.
fn last_part(path: &str) -> Option<(&str, &str)>
    requires slashless { (i : ℕ) → i < length path.now → slice_index path.now i ≢ 47 }
    ensures none { result ≡ None → path_parts path.now ≡ [] }
    ensures part { IfSome result (λ found. path_parts path.now ≡ found.0.now ∷ path_parts found.1.now) }
    ensures shorter { IfSome result (λ found. length found.1.now < length path.now) }
{
    if path.is_empty() {
        None
    } else {
        Some((path, ""))
    }
}
