//! Laws of folders that callers may rely on.
ghost use Rattle.std.specs.Prelude.{◌≡◌, ℕ, List, Some, None, if◌then◌else◌, Ok, Err};
ghost use Rattle.std.specs.List.Sorted.{IsStrictlySortedBy};
ghost use Rattle.std.specs.Map.{keys_of};
ghost use Rattle.std.specs.Str.{bytes_eq};
ghost use Rattle.names.specs.Digests.{IsBytes};
ghost use Rattle.folders.specs.declared.edit.Edit.{Edit};
ghost use Rattle.folders.specs.declared.refusal.FolderRefusal.{FolderRefusal};
ghost use Rattle.folders.specs.Edits.{edited};
ghost use Rattle.folders.specs.Files.{Files, path_cmp, content_at, folder_bytes, IsFolder};
ghost use Rattle.folders.specs.Reading.{folder_of, Faulted};

/// Folder bytes are those of exactly one folder, the one that is read from them.
pub fn a_folder_has_one_spelling()
    ensures read { (text : List ℕ) (files : Files) → IsBytes text → folder_of text ≡ Ok files → text ≡ folder_bytes files }
    ensures folder { (text : List ℕ) (files : Files) → IsBytes text → folder_of text ≡ Ok files → IsFolder files }
    ensures written { (files : Files) → IsFolder files → folder_of (folder_bytes files) ≡ Ok files }
    ensures one { (one other : Files) → IsFolder one → IsFolder other → folder_bytes one ≡ folder_bytes other → one ≡ other }
{}

/// Unless there are too many bytes, a refusal is the fault at the first place where no file can be read.
pub fn first_fault_decides()
    ensures { (text : List ℕ) (refusal : FolderRefusal) → IsBytes text → folder_of text ≡ Err refusal → Faulted text refusal }
{}

/// An edit changes the content at its path, and nothing else.
pub fn edits_change_one_path()
    ensures put { (files : Files) (path content other : List ℕ)
        → content_at (edited files (Edit.Put path content)) other ≡ (if bytes_eq other path then Some content else content_at files other) }
    ensures remove { (files : Files) (path other : List ℕ) → IsStrictlySortedBy path_cmp (keys_of files)
        → content_at (edited files (Edit.Remove path)) other ≡ (if bytes_eq other path then None else content_at files other) }
    ensures rise { (files : Files) (edit : Edit) → IsStrictlySortedBy path_cmp (keys_of files) → IsStrictlySortedBy path_cmp (keys_of (edited files edit)) }
{}
