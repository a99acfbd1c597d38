//! What holds of every collect, its shards and its mask. A set of keys is given by a test, and
//! where no rule is asked, the collect need keep none.
ghost use Rattle.std.specs.Prelude.{◌≡◌, ◌↔◌, ◌<◌, ◌++◌, [], ℕ, true, filter, length};
ghost use Rattle.std.specs.Prelude.{Bool, Contains, List};
ghost use Rattle.item_schema.specs.declared.column.Column.{Column};
ghost use Rattle.key_shards.specs.Collections.{Collection, mask_of, shard_of, whole_of};
ghost use Rattle.key_shards.specs.Merging.{AreMerged, IsMerge, StandInOrder, first_stand};
ghost use Rattle.key_shards.specs.Parted.{AreDefinedAlike, IsDefined};
ghost use Rattle.key_shards.specs.Shares.{Division, Entries, entries_of, share};
ghost use Rattle.query_model.specs.Denotation.{Den, keys_after, projection};
ghost use Rattle.query_model.specs.Rules.{IsClear, Standing};
ghost use Rattle.rate_expr.specs.Language.{In};
ghost use Rattle.rate_expr.specs.Words.{Word, IsWordOf};
ghost use Rattle.value_ops.specs.declared.value.Value.{Value};
ghost use Rattle.value_ops.specs.declared.value.Value.TheVariants.{Table};

/// However the keys are divided: a collect has a value where its mask has one, and it is the merge
/// of the tables that the shards have on their shares.
pub fn a_collect_is_the_merge_of_its_shards()
    ensures defined { (standing : Standing) (columns : List Column) (given : Collection)
        → IsClear standing columns (whole_of given)
        → AreDefinedAlike columns (whole_of given) (mask_of given) }
    ensures merge { (given : Collection) (division : Division) (word : Word) (entries : Entries)
        → Den (whole_of given) word (Table entries)
        ↔ (Den (mask_of given) word (Table []) × AreMerged given division word entries) }
    ensures one { (given : Collection) (division : Division) (word : Word) (tables : ℕ → Entries)
        (entries others : Entries) → IsMerge given division word tables entries
        → IsMerge given division word tables others → entries ≡ others }
    ensures mask { (given : Collection) (word : Word) (value : Value)
        → Den (mask_of given) word value ↔ (In given.rate word × (value ≡ Table [])) }
{}

/// A shard has the entries of its keys and no others.
pub fn a_shard_has_the_entries_of_its_keys()
    ensures { (given : Collection) (theirs : List ℕ → Bool) (word : Word) (entries : Entries)
        → Den (whole_of given) word (Table entries)
        → Den (shard_of given) (share given theirs word) (Table (entries_of theirs entries)) }
{}

/// In a share each of its keys has the items that it has in the word, and the keys keep their
/// order.
pub fn a_share_has_all_that_its_keys_have()
    ensures items { (given : Collection) (theirs : List ℕ → Bool) (key : List ℕ) (word : Word)
        → theirs key ≡ true → projection given.chosen given.sync key (share given theirs word)
        ≡ projection given.chosen given.sync key word }
    ensures keys { (given : Collection) (theirs : List ℕ → Bool) (word : Word)
        → keys_after given.chosen given.sync [] (share given theirs word)
        ≡ filter theirs (keys_after given.chosen given.sync [] word) }
{}

/// The keys of a word stand in the order of their first items, and are those that have one.
pub fn keys_stand_by_their_first_items()
    ensures order { (given : Collection) (word : Word) → StandInOrder (first_stand given word)
        (keys_after given.chosen given.sync [] word) }
    ensures all { (given : Collection) (word : Word) (key : List ℕ)
        → Contains (keys_after given.chosen given.sync [] word) key
        ↔ (first_stand given word key < length word) }
{}

/// Where a collect keeps the rules, so do its shards and its mask, and a shard has a value on the
/// share of any keys.
pub fn shards_and_masks_keep_the_rules()
    ensures shard { (standing : Standing) (columns : List Column) (given : Collection)
        → IsClear standing columns (whole_of given)
        → IsClear standing columns (shard_of given) }
    ensures mask { (standing : Standing) (columns : List Column) (given : Collection)
        → IsClear standing columns (whole_of given)
        → IsClear standing columns (mask_of given) }
    ensures defined { (standing : Standing) (columns : List Column) (given : Collection)
        → IsClear standing columns (whole_of given) → (theirs : List ℕ → Bool) (word : Word)
        → IsWordOf columns word → IsDefined (shard_of given) (share given theirs word) }
{}

/// Where some keys have no share in the items that come, what stands under them stays.
pub fn an_entry_changes_by_its_items_alone()
    ensures { (standing : Standing) (columns : List Column) (given : Collection)
        → IsClear standing columns (whole_of given)
        → (theirs : List ℕ → Bool) (word next : Word) (entries others : Entries)
        → IsWordOf columns word → share given theirs next ≡ []
        → Den (whole_of given) word (Table entries)
        → Den (whole_of given) (word ++ next) (Table others)
        → entries_of theirs others ≡ entries_of theirs entries }
{}
