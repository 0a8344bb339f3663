//! Laws of the definitions. Each function does nothing, and its contract is the law. A word's tool is the caller's: the
//! laws of one tool hold whatever the first word is.

ghost use Rattle.std.specs.Prelude.{◌≡◌, ℕ, List, [], ◌∷◌, ◌++◌, codes, false, true, Some, None, Ok, Err};
ghost use Rattle.clap.specs.Words.{Text};
ghost use Rattle.std.specs.List.{list_all};
ghost use Rattle.std.specs.Str.{bytes_eq};
ghost use Rattle.ntfs_words.specs.Cat.{cat_asked};
ghost use Rattle.ntfs_words.specs.Clone.{clone_asked};
ghost use Rattle.ntfs_words.specs.Cluster.{cluster_asked};
ghost use Rattle.ntfs_words.specs.Cp.{cp_asked};
ghost use Rattle.ntfs_words.specs.Fix.{fix_asked};
ghost use Rattle.ntfs_words.specs.Info.{info_asked};
ghost use Rattle.ntfs_words.specs.Line.{are_distinct, begins_with_hyphen};
ghost use Rattle.ntfs_words.specs.Ls.{ls_asked};
ghost use Rattle.ntfs_words.specs.Make.{is_in_range, make_asked};
ghost use Rattle.ntfs_words.specs.Numbers.{number_of};
ghost use Rattle.ntfs_words.specs.Resize.{resize_asked};
ghost use Rattle.ntfs_words.specs.Tool.{tool_name, tool_named};
ghost use Rattle.ntfs_words.specs.Trial.{trial_asked};
ghost use Rattle.ntfs_words.specs.Words.{asked, commands};
ghost use Rattle.ntfs_words.specs.declared.tool.Tool.{Tool};

use crate::request::{Ask, Request, Target, WordsFault};
use ntfs_base::UsageKind;

/// A first word that names no tool is refused, whatever follows; so are no words.
pub fn unknown_tools_are_refused()
    ensures words { (word : Text) (words : List Text) → tool_named word ≡ None
        → asked (word ∷ words) ≡ Err (WordsFault.Usage UsageKind.Tool) }
    ensures nothing { asked [] ≡ Err (WordsFault.Usage UsageKind.Tool) }
{}

/// ntfsinfo takes the number of a record apart from its option or joined to it, before the image or behind it.
pub fn info_takes_a_number()
    ensures apart { (word number image : Text) (n : ℕ) → number_of number ≡ Some n → begins_with_hyphen image ≡ false
        → info_asked (word ∷ codes "-i" ∷ number ∷ image ∷ []) ≡ Ok (Request.Info false (Some n) image) }
    ensures after { (word number image : Text) (n : ℕ) → number_of number ≡ Some n → begins_with_hyphen image ≡ false
        → info_asked (word ∷ image ∷ codes "-i" ∷ number ∷ []) ≡ Ok (Request.Info false (Some n) image) }
    ensures joined { (word number image : Text) (n : ℕ) → number_of number ≡ Some n → begins_with_hyphen image ≡ false
        → info_asked (word ∷ (codes "-i" ++ number) ∷ image ∷ []) ≡ Ok (Request.Info false (Some n) image) }
    ensures equals { (word number image : Text) (n : ℕ) → number_of number ≡ Some n → begins_with_hyphen image ≡ false
        → info_asked (word ∷ (codes "-i=" ++ number) ∷ image ∷ []) ≡ Ok (Request.Info false (Some n) image) }
    ensures long { (word number image : Text) (n : ℕ) → number_of number ≡ Some n → begins_with_hyphen image ≡ false
        → info_asked (word ∷ (codes "--inode=" ++ number) ∷ image ∷ []) ≡ Ok (Request.Info false (Some n) image) }
{}

/// Behind `--` everything is an image.
pub fn info_takes_any_image()
    ensures { (word image : Text)
        → info_asked (word ∷ codes "-m" ∷ codes "--" ∷ image ∷ []) ≡ Ok (Request.Info true None image) }
{}

/// An option that no tool has is refused, whatever follows.
pub fn unknown_options_are_refused()
    ensures { (tool : Tool) (words : List Text)
        → asked (tool_name tool ∷ codes "-z" ∷ words) ≡ Err (WordsFault.Usage UsageKind.Line) }
{}

/// An option twice is refused, whatever follows.
pub fn options_are_given_once()
    ensures info { (word : Text) (words : List Text)
        → info_asked (word ∷ codes "-m" ∷ codes "-m" ∷ words) ≡ Err (WordsFault.Usage UsageKind.Line) }
    ensures ls { (word : Text) (words : List Text)
        → ls_asked (word ∷ codes "-a" ∷ codes "-a" ∷ words) ≡ Err (WordsFault.Usage UsageKind.Line) }
    ensures cat { (word : Text) (words : List Text)
        → cat_asked (word ∷ codes "-i1" ∷ codes "-i1" ∷ words) ≡ Err (WordsFault.Usage UsageKind.Line) }
    ensures cluster { (word : Text) (words : List Text)
        → cluster_asked (word ∷ codes "-i" ∷ codes "-i" ∷ words) ≡ Err (WordsFault.Usage UsageKind.Line) }
    ensures cp { (word : Text) (words : List Text)
        → cp_asked (word ∷ codes "-n" ∷ codes "-n" ∷ words) ≡ Err (WordsFault.Usage UsageKind.Line) }
    ensures clone { (word : Text) (words : List Text)
        → clone_asked (word ∷ codes "-s" ∷ codes "-s" ∷ words) ≡ Err (WordsFault.Usage UsageKind.Line) }
    ensures resize { (word : Text) (words : List Text)
        → resize_asked (word ∷ codes "-s1" ∷ codes "-s1" ∷ words) ≡ Err (WordsFault.Usage UsageKind.Line) }
    ensures fix { (word : Text) (words : List Text)
        → fix_asked (word ∷ codes "--rebuild" ∷ codes "--rebuild" ∷ words) ≡ Err (WordsFault.Usage UsageKind.Line) }
{}

/// Behind `--` every word is a name, a path or a number, whatever it begins with.
pub fn words_behind_two_hyphens_are_names()
    ensures ls { (word image : Text) → ls_asked (word ∷ codes "--" ∷ image ∷ [])
        ≡ Ok (Request.Ls false false false false false false None image) }
    ensures cat { (word image path : Text) → cat_asked (word ∷ codes "--" ∷ image ∷ path ∷ [])
        ≡ Ok (Request.Cat (Target.Path path) 128 None image) }
    ensures cluster { (word image : Text) → cluster_asked (word ∷ codes "-i" ∷ codes "--" ∷ image ∷ [])
        ≡ Ok (Request.Cluster Ask.Info image) }
    ensures cp { (word image source path : Text) → bytes_eq image source ≡ false
        → cp_asked (word ∷ codes "--" ∷ image ∷ source ∷ path ∷ [])
        ≡ Ok (Request.Cp 128 None false image source (Target.Path path)) }
    ensures clone { (word source : Text) → clone_asked (word ∷ codes "-s" ∷ codes "--" ∷ source ∷ [])
        ≡ Ok (Request.Clone true false false false None false (Some source)) }
    ensures resize { (word image : Text) → resize_asked (word ∷ codes "--" ∷ image ∷ [])
        ≡ Ok (Request.Resize false false false None image) }
    ensures fix { (word image : Text) → fix_asked (word ∷ codes "--" ∷ image ∷ [])
        ≡ Ok (Request.Fix false false false false image) }
    ensures make { (word file seed clusters cluster : Text) (s n c : ℕ) → number_of seed ≡ Some s
        → number_of clusters ≡ Some n → number_of cluster ≡ Some c → is_in_range n c ≡ true
        → make_asked (word ∷ codes "--" ∷ file ∷ seed ∷ clusters ∷ cluster ∷ []) ≡ Ok (Request.Make file s n c) }
    ensures trial { (word seed name : Text) (n : ℕ) → number_of seed ≡ Some n
        → trial_asked (word ∷ codes "--" ∷ seed ∷ name ∷ []) ≡ Ok (Request.Trial n name) }
{}

/// No letter and no name stands twice in the table of a tool.
pub fn tables_have_distinct_names()
    ensures { list_all (λ command. are_distinct command.top.rules) commands ≡ true }
{}
