//! What holds of keys that are divided by their hashes.
ghost use Rattle.std.specs.Prelude.{◌≡◌, ◌<◌, ℕ, List, false, filter};
ghost use Rattle.value_ops.specs.declared.field.Field.{Field};
ghost use Rattle.predicates.specs.Predicates.{Predicate};
ghost use Rattle.predicates.specs.Truth.{holds};
ghost use Rattle.rate_expr.specs.Words.{Word};
ghost use Rattle.query_model.specs.Keys.{key_of};
ghost use Rattle.key_shards.specs.Collections.{Collection};
ghost use Rattle.key_shards.specs.Shares.{Division, is_home, share};
ghost use Rattle.key_routes.specs.Routes.{IsByHash, comes_to, route_of};

/// There is a division by hashes among any number of shards but none.
pub fn keys_can_be_divided()
    ensures { (shards : ℕ) → 0 < shards
        → (division : Division) × IsByHash division × (division.shards ≡ shards) }
{}

/// A shard's share of a word are the items that go to it.
pub fn a_share_is_what_is_sent()
    ensures { (given : Collection) (division : Division) (shard : ℕ) (word : Word)
        → IsByHash division → share given (is_home division shard) word
        ≡ filter (λ item. comes_to shard (route_of given.chosen given.sync division.shards item))
        word }
{}

/// Items that do not meet the predicate and have one key go to one shard.
pub fn items_of_one_key_go_to_one_shard()
    ensures { (chosen : List ℕ) (sync : Predicate) (shards : ℕ) (one other : List Field)
        → holds sync one ≡ false → holds sync other ≡ false
        → key_of chosen one ≡ key_of chosen other
        → route_of chosen sync shards one ≡ route_of chosen sync shards other }
{}
