//! Laws of merges that callers may rely on.
ghost use Rattle.std.specs.Prelude.{◌≡◌, ◌⊎◌, ℕ, ◌<◌, ◌^◌, ◌∷◌, ◌++◌, List, true, false};
ghost use Rattle.std.specs.List.{Contains};
ghost use Rattle.std.specs.List.Sorted.{IsStrictlySortedBy};
ghost use Rattle.merging.specs.declared.rule.Rule.{Rule};
ghost use Rattle.merging.specs.declared.rule.Rule.TheVariants as rules;
ghost use Rattle.merging.specs.declared.side.Side.TheVariants as side;
ghost use Rattle.merging.specs.Choices.{of, other, newer, favoured, is_contested};
ghost use Rattle.merging.specs.Listings.{Listing, path_cmp, entry_at, IsListing, stands, IsTree};
ghost use Rattle.merging.specs.Merging.{three_at, is_conflict_at, IsMerge, Stays};
ghost use Rattle.merging.specs.Rows.{paths_of};
ghost use Rattle.merging.specs.Times.{time_text};
ghost use Rattle.merging.specs.Views.{merged_conflicts};

/// Where mine changed nothing, theirs stands; where theirs changed nothing, mine; where both changed it, the rule's side or what both
/// made of it: but for a directory that stays as something below it stands.
pub fn each_side_keeps_what_it_changed()
    ensures theirs { (rule : Rule) (base mine theirs merged : Listing) (path : List ℕ) → IsMerge rule base mine theirs merged
        → entry_at mine path ≡ entry_at base path → (entry_at merged path ≡ entry_at theirs path) ⊎ Stays side.Mine rule base mine theirs path }
    ensures mine { (rule : Rule) (base mine theirs merged : Listing) (path : List ℕ) → IsMerge rule base mine theirs merged
        → entry_at theirs path ≡ entry_at base path → (entry_at merged path ≡ entry_at mine path) ⊎ Stays side.Theirs rule base mine theirs path }
    ensures contested { (rule : Rule) (base mine theirs merged : Listing) (path : List ℕ) → IsMerge rule base mine theirs merged
        → is_contested (three_at base mine theirs path) ≡ true
        → (entry_at merged path ≡ of (favoured rule (entry_at mine path) (entry_at theirs path)) (three_at base mine theirs path))
        ⊎ Stays (other (favoured rule (entry_at mine path) (entry_at theirs path))) rule base mine theirs path }
{}

/// By the rule `Newer` it doesn't depend on which side is which: the same entries stand, and the same paths are conflicts.
pub fn newer_is_the_same_from_both_sides()
    ensures merged { (base mine theirs one another : Listing) → IsMerge rules.Newer base mine theirs one → IsMerge rules.Newer base theirs mine another → one ≡ another }
    ensures conflicts { (base mine theirs : Listing) (path : List ℕ) → is_conflict_at rules.Newer base mine theirs path ≡ is_conflict_at rules.Newer base theirs mine path }
{}

/// The entry with the later time is the newer one: behind its kind, a byte, and a space stands the time, in 20 digits.
pub fn the_later_time_is_newer()
    ensures { (kind other_kind time later : ℕ) (rest other_rest : List ℕ) → time < later → later < 10 ^ 20
        → newer (Some (kind ∷ 32 ∷ time_text time ++ rest)) (Some (other_kind ∷ 32 ∷ time_text later ++ other_rest)) ≡ side.Theirs }
{}

/// Where one side is the base, the merge is the other side.
pub fn one_side_alone_is_the_merge()
    ensures mine { (rule : Rule) (base mine merged : Listing) → IsListing mine → IsTree (entry_at mine) → IsMerge rule base mine base merged → merged ≡ mine }
    ensures theirs { (rule : Rule) (base theirs merged : Listing) → IsListing theirs → IsTree (entry_at theirs) → IsMerge rule base base theirs merged → merged ≡ theirs }
{}

/// Merging mine again into the merge changes nothing.
pub fn merging_again_changes_nothing()
    ensures { (rule : Rule) (base mine theirs merged again : Listing) → IsMerge rule base mine theirs merged → IsMerge rule base mine merged again → again ≡ merged }
{}

/// The changes of two commands on the same base, without conflicts, make the same of a version in either order.
pub fn either_order_gives_the_same()
    ensures { (rule : Rule) (base one two theirs with_one with_two one_last two_last : Listing)
        → IsMerge rule base one theirs with_one → IsMerge rule base two theirs with_two
        → IsMerge rule base one with_two one_last → IsMerge rule base two with_one two_last
        → ((path : List ℕ) → is_conflict_at rule base one theirs path ≡ false) → ((path : List ℕ) → is_conflict_at rule base two theirs path ≡ false)
        → ((path : List ℕ) → is_conflict_at rule base one with_two path ≡ false) → ((path : List ℕ) → is_conflict_at rule base two with_one path ≡ false)
        → one_last ≡ two_last }
{}

/// The merge of trees is a tree.
pub fn a_merge_of_trees_is_a_tree()
    ensures { (rule : Rule) (base mine theirs merged : Listing) → IsMerge rule base mine theirs merged → IsTree (entry_at mine) → IsTree (entry_at theirs) → IsTree (entry_at merged) }
{}

/// There is one merge of three listings.
pub fn there_is_one_merge()
    ensures { (rule : Rule) (base mine theirs one another : Listing) → IsMerge rule base mine theirs one → IsMerge rule base mine theirs another → one ≡ another }
{}

/// The paths of three listings rise, and are those at which an entry stands in one of them; a merge has no other path. Its conflicts
/// are the paths at which there is one.
pub fn paths_are_those_of_the_three()
    ensures rise { (base mine theirs : Listing) → IsListing base → IsListing mine → IsListing theirs → IsStrictlySortedBy path_cmp (paths_of base mine theirs) }
    ensures each { (base mine theirs : Listing) (path : List ℕ) → IsListing base → IsListing mine → IsListing theirs
        → stands (entry_at base path) ≡ true ⊎ (stands (entry_at mine path) ≡ true ⊎ stands (entry_at theirs path) ≡ true) → Contains (paths_of base mine theirs) path }
    ensures conflicts { (rule : Rule) (base mine theirs : Listing) (path : List ℕ) → IsListing base → IsListing mine → IsListing theirs
        → is_conflict_at rule base mine theirs path ≡ true → Contains (merged_conflicts rule base mine theirs) path }
    ensures only { (rule : Rule) (base mine theirs : Listing) (path : List ℕ) → Contains (merged_conflicts rule base mine theirs) path → is_conflict_at rule base mine theirs path ≡ true }
{}
