//! What follows the words of a query, item by item.
ghost use Rattle.std.specs.Prelude.{◌≡◌, ◌+◌, ◌-◌, ◌^◌, true, false, [], min, ℕ, Bool, List};
ghost use Rattle.std.specs.Prelude.{length, None, IfOk, OnOk, OnErr};
ghost use Rattle.std.specs.Option.{option_copied};
ghost use Rattle.item_schema.specs.declared.column.Column.{Column};
ghost use Rattle.rate_expr.specs.Words.{Word};
ghost use Rattle.query_model.specs.Following.{Carries, FitsNext, FollowsAll, IsAnswer};
ghost use Rattle.query_model.specs.Queries.{Qre};

use item_schema::Item;
use std::alloc::{AllocError, Global};
use value_ops::Value;

/// It follows a word of items of a query's stream, and has the query's value on the word. Where
/// memory runs out it is lost, and follows no word, until a reset finds some.
pub trait Follower: Sized {
    /// The query.
    ghost query: { Self → Qre };

    /// The columns of its stream.
    ghost columns: { Self → List Column };

    /// How many items it has taken.
    ghost position: { Self → ℕ };

    /// Memory ran out.
    ghost lost: { Self → Bool };

    /// It follows this word.
    ghost follows: { Self → Word → Type 0 };

    /// It is one of its query, whatever it follows.
    ghost sound: { Self → Type 0 };

    /// What it keeps, counted.
    ghost kept: { Self → ℕ };

    /// Takes one more item.
    fn step(&mut self, alloc: Global, item: &Item) -> Result<(), AllocError>
        requires sound { sound self.old }
        requires found { lost self.old ≡ false }
        requires fits { FitsNext (columns self.old) (query self.old) (position self.old) item.now }
        ensures ok { OnOk result (Carries follows self.old item.now self.new) }
        ensures position { OnOk result (position self.new ≡ position self.old + 1) }
        ensures found { OnOk result (lost self.new ≡ false) }
        ensures err { OnErr result (lost self.new ≡ true) }
        ensures sound { sound self.new }
        ensures same { (query self.new ≡ query self.old) × (columns self.new ≡ columns self.old) };

    /// The value on the word that it follows, if there is one.
    fn answer(&self) -> Option<&Value>
        ensures answer { (word : Word) → follows self.now word
            → IsAnswer (query self.now) word (option_copied result) }
        ensures lost { lost self.now ≡ true → result ≡ None };

    fn try_copy(&self, alloc: Global) -> Result<Self, AllocError>
        requires sound { sound self.now }
        requires found { lost self.now ≡ false }
        ensures words { IfOk result (FollowsAll follows self.now) }
        ensures position { IfOk result (λ copy. position copy ≡ position self.now) }
        ensures kept { IfOk result (λ copy. kept copy ≡ kept self.now) }
        ensures sound { IfOk result (λ copy. sound copy × (lost copy ≡ false)) }
        ensures same { IfOk result (λ copy.
            (query copy ≡ query self.now) × (columns copy ≡ columns self.now)) };

    /// Goes back to the empty word.
    fn reset(&mut self, alloc: Global) -> Result<(), AllocError>
        requires sound { sound self.old }
        ensures ok { OnOk result (follows self.new []) }
        ensures position { OnOk result (position self.new ≡ 0) }
        ensures found { OnOk result (lost self.new ≡ false) }
        ensures err { OnErr result (lost self.new ≡ true) }
        ensures sound { sound self.new }
        ensures same { (query self.new ≡ query self.old) × (columns self.new ≡ columns self.old) };

    /// Whether memory ran out.
    fn failed(&self) -> bool
        ensures { result ≡ lost self.now };

    /// What it keeps, counted; 2^64 - 1 where it is more.
    fn stored(&self) -> u64
        ensures { result ≡ min (kept self.now) (2 ^ 64 - 1) };

    /// What is lost follows no word.
    ghost lost_follows: { (follower : Self) (word : Word) → follows follower word
        → lost follower ≡ false };

    /// The position is after the word.
    ghost at_end: { (follower : Self) (word : Word) → follows follower word
        → position follower ≡ length word };

    /// What follows a word is sound.
    ghost follows_sound: { (follower : Self) (word : Word) → follows follower word
        → sound follower };
}
