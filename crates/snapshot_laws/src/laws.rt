//! What is kept of a runner stands for the same words as the runner, and fits its query.
ghost use Rattle.std.specs.Prelude.{◌≤◌, List};
ghost use Rattle.item_schema.specs.declared.column.Column.{Column};
ghost use Rattle.rate_expr.specs.Words.{Word, IsWordOf};
ghost use Rattle.query_model.specs.Checked.{CheckedQuery, IsChecked};
ghost use Rattle.query_model.specs.Queries.{Qre, plain_of};
ghost use Rattle.eval_nodes.specs.Plain.{holding_of, seen_of};
ghost use Rattle.eval_nodes.specs.Runners.{FollowsWord, IsSoundOf};
ghost use Rattle.eval_nodes.specs.declared.progress.Progress.{Progress};
ghost use Rattle.runner_snapshot.specs.Dumps.{Runner, position_of};
ghost use Rattle.eval_snapshot.specs.Dumped.{dumped};
ghost use Rattle.eval_snapshot.specs.Fits.{Fits, max_position};
ghost use Rattle.eval_snapshot.specs.Means.{Means};
ghost use Rattle.snapshot_laws.specs.Runners.{HasItsRunners};

/// Whatever word of its stream a runner follows, what is kept of it stands for the word.
pub fn what_is_kept_stands_for_the_words_of_its_runner()
    ensures { (columns : List Column) (query : Qre) (word : Word) (runner : Progress)
        → IsWordOf columns word → FollowsWord seen_of columns query word runner
        → Means columns query (dumped seen_of query runner) word }
{}

/// The other way round, where the runner is sound.
pub fn runners_follow_the_words_of_their_dumps()
    ensures { (columns : List Column) (query : Qre) (word : Word) (runner : Progress)
        → IsSoundOf seen_of columns query runner
        → HasItsRunners seen_of query (holding_of runner.node.state)
        → Means columns query (dumped seen_of query runner) word
        → FollowsWord seen_of columns query word runner }
{}

/// What stands for a word of a checked query fits, if the word is not too long.
pub fn what_stands_for_a_word_fits()
    ensures { (on : CheckedQuery) (dump : Runner) (word : Word) → IsChecked on
        → Means on.layout.columns (plain_of on.main.shape) dump word
        → position_of dump ≤ max_position
        → Fits on.layout.columns (plain_of on.main.shape) dump }
{}
