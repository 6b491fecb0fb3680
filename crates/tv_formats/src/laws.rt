//! Laws of the forms: names, lists, footers, commits. Each function does nothing: its contract is the law.
ghost use Rattle.std.specs.Prelude.{◌≡◌, ◌<◌, ◌^◌, ◌∷◌, ◌++◌, ◌↔◌, IsSome, IsUtf8};
ghost use Rattle.std.specs.Prelude.{List, [], None, Some, true, ℕ};
ghost use Rattle.std.specs.List.{AllByRecursion};
ghost use Rattle.std.specs.List.Sorted.{IsStrictlySortedBy};
ghost use Rattle.serde_json.specs.Data.{Data};
ghost use Rattle.serde_json.specs.Read.{read};
ghost use Rattle.tv_formats.specs.Commits.{Commit, IsCommit, Settings, printed};
ghost use Rattle.tv_formats.specs.Files.{Reads};
ghost use Rattle.tv_formats.specs.Footer.{HasBody, IsFramed, body_of, sealed};
ghost use Rattle.tv_formats.specs.FooterForm.{FooterNumbers};
ghost use Rattle.tv_formats.specs.Framing.{footer_of};
ghost use Rattle.tv_formats.specs.Sound.{IsSoundImage};
ghost use Rattle.tv_formats.specs.Listing.{IsListOf, IsManagedName, list_text};
ghost use Rattle.tv_formats.specs.Meaning.{Means, MeansNothing, MeansOther};
ghost use Rattle.tv_formats.specs.MetaJson.{SpellsMeta};
ghost use Rattle.tv_formats.specs.Names.{byte_cmp};
ghost use Rattle.tv_formats.specs.Schemas.{IsSchemaText, IsSchemaTree, stripped};

use crate::id::SegmentId;

/// A directory without files is sound, under each schema.
pub fn empty_directories_are_sound()
    ensures sound { (schema : List ℕ) (reads : Reads) → ((n : List ℕ) → reads n ≡ None)
        → IsSoundImage schema reads }
{}

/// Ids are ordered by their bytes, and two are the same exactly where their bytes are.
pub fn ids_are_ordered_by_their_bytes()
    ensures order { (a b : List ℕ) → ⟦<SegmentId as Ord>⟧.cmp a b ≡ byte_cmp a b }
    ensures same { (a b : List ℕ) → (⟦<SegmentId as PartialEq>⟧.eq a b ≡ true) ↔ (a ≡ b) }
{}

/// A sealed file has the body with which it was sealed, and a file that has a footer has one footer
/// and one body. The footer that is found from the bytes is this one, where they have one.
pub fn files_keep_their_body()
    ensures has_body { (body : List ℕ) → HasBody (sealed body) body }
    ensures sealed { (body : List ℕ) → body_of (sealed body) ≡ body }
    ensures good { (bytes body : List ℕ) → HasBody bytes body → body_of bytes ≡ body }
    ensures one { (bytes : List ℕ) (first second : FooterNumbers) (body other : List ℕ)
        → IsFramed bytes first body → IsFramed bytes second other
        → (first ≡ second) × (body ≡ other) }
    ensures found { (bytes : List ℕ) (footer : FooterNumbers) (body : List ℕ)
        → IsFramed bytes footer body → footer_of bytes ≡ Some footer }
    ensures framed { (bytes : List ℕ) (footer : FooterNumbers) → footer_of bytes ≡ Some footer
        → IsFramed bytes footer (body_of bytes) }
{}

/// What `meta.json` means where a schema is expected. The printed form of a commit, with a line feed,
/// means this commit, and so does what spells it as JSON with the schema's tree. Bytes mean one commit
/// at most, under one settings, and what they mean is a commit; then they don't mean nothing, nor a
/// commit of another schema.
pub fn meta_json_keeps_commits()
    ensures printed { (settings : Settings) (schema : List ℕ) (tree : Data) (commit : Commit)
        → IsCommit commit → settings.blocksize < 2 ^ 64 → IsSchemaText schema tree
        → Means settings schema (printed settings schema commit ++ 10 ∷ []) commit }
    ensures spelled { (settings : Settings) (schema bytes : List ℕ) (tree : Data) (commit : Commit)
        → IsSchemaText schema tree → SpellsMeta bytes settings commit tree
        → Means settings schema bytes commit }
    ensures one { (schema bytes : List ℕ) (first second : Settings) (commit other : Commit)
        → Means first schema bytes commit → Means second schema bytes other
        → (first ≡ second) × (commit ≡ other) }
    ensures is_commit { (settings : Settings) (schema bytes : List ℕ) (commit : Commit)
        → Means settings schema bytes commit
        → IsCommit commit × (settings.blocksize < 2 ^ 64) }
    ensures something { (settings : Settings) (schema bytes : List ℕ) (commit : Commit)
        → Means settings schema bytes commit → MeansNothing (Some schema) bytes → ⊥ }
    ensures no_other { (settings : Settings) (schema bytes : List ℕ) (commit : Commit)
        → Means settings schema bytes commit → MeansOther schema bytes → ⊥ }
{}

/// What bytes spell as JSON, whatever schema is expected. They spell one commit at most, under one
/// settings and with one schema, and what they spell is a commit. Bytes that mean a commit and are read
/// as JSON spell it; and the printed form of a commit, with a line feed, is read, where the text of its
/// schema is read inside an array too.
pub fn json_spells_one_commit()
    ensures printed { (settings : Settings) (schema : List ℕ) (tree : Data) (commit : Commit)
        → IsCommit commit → settings.blocksize < 2 ^ 64 → IsSchemaText schema tree
        → IsSome (read (91 ∷ schema ++ 93 ∷ []))
        → SpellsMeta (printed settings schema commit ++ 10 ∷ []) settings commit tree }
    ensures spelled { (settings : Settings) (schema bytes : List ℕ) (commit : Commit)
        → Means settings schema bytes commit → IsSome (read bytes)
        → (tree : Data) × IsSchemaText schema tree × SpellsMeta bytes settings commit tree }
    ensures one { (bytes : List ℕ) (first second : Settings) (commit other : Commit)
        (tree schema : Data) → SpellsMeta bytes first commit tree
        → SpellsMeta bytes second other schema
        → (first ≡ second) × (commit ≡ other) × (tree ≡ schema) }
    ensures is_commit { (bytes : List ℕ) (settings : Settings) (commit : Commit) (tree : Data)
        → SpellsMeta bytes settings commit tree
        → IsCommit commit × (settings.blocksize < 2 ^ 64) }
{}

/// A text without blanks that has the tree of a schema is the text of a schema: it begins with its
/// bracket.
pub fn stripped_schemas_are_texts()
    ensures texts { (bytes : List ℕ) (tree : Data) (names : List (List ℕ))
        → IsUtf8 (stripped bytes) → read (stripped bytes) ≡ Some tree → IsSchemaTree tree names
        → IsSchemaText (stripped bytes) tree }
{}

/// The list of managed names as it is written is the list of these names, and no bytes are the list of
/// other names too.
pub fn lists_tell_their_names()
    ensures written { (names : List (List ℕ)) → AllByRecursion IsManagedName names
        → IsStrictlySortedBy byte_cmp names → IsListOf (list_text names) names }
    ensures one { (bytes : List ℕ) (names others : List (List ℕ)) → IsListOf bytes names
        → IsListOf bytes others → names ≡ others }
{}
