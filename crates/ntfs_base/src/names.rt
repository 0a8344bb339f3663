//! Names that are attached to a shelf.
ghost use Rattle.std.specs.Prelude.{◌≡◌, map, string_bytes};
ghost use Rattle.std.specs.Str.{bytes_eq};
ghost use Rattle.ntfs_base.specs.Shelf.{without};

/// Takes the first of a name away.
pub fn remove_name(names: &mut Vec<String>, name: &str)
    ensures { map string_bytes names.new.items ≡ without name.now (map string_bytes names.old.items) }
{
    'names: for index in 0..names.len() {
        if is_named(&names[index], name) {
            names.remove(index);
            return;
        }
    }
}

/// The text is this name.
pub fn is_named(text: &String, name: &str) -> bool
    ensures { result ≡ bytes_eq name.now (string_bytes text.now) }
{
    name == text.as_str()
}
