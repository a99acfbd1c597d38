//! What holds of the lines that come to a shard.
ghost use Rattle.std.specs.Prelude.{◌≡◌, ℕ, List};
ghost use Rattle.io_edge.specs.Lines.{Shown};
ghost use Rattle.item_schema.specs.Layout.{Layout};
ghost use Rattle.key_routes.specs.Routes.{IsByHash};
ghost use Rattle.key_shards.specs.Collections.{Collection};
ghost use Rattle.key_shards.specs.Shares.{Division, is_home, share};
ghost use Rattle.stream_run.specs.Output.{items_of};
ghost use Rattle.shard_run.specs.Routes.{items_at, routing_for};

/// The items of the lines that come to a shard are its share of the items of all lines, where the
/// keys are divided by their hashes.
pub fn a_shard_has_the_items_of_its_lines()
    ensures { (layout : Layout) (given : Collection) (division : Division) (shard : ℕ)
        (shown : List Shown) → IsByHash division
        → items_at (routing_for layout given division.shards) shard shown
        ≡ share given (is_home division shard) (items_of layout shown) }
{}
