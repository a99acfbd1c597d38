//! The live starts of a collect, each with a state of the automaton and with its followers by key.
ghost use Rattle.std.specs.Prelude.{◌≡◌, ◌<◌, ◌↔◌, ◌++◌, [], ◌∷◌, length, Some, IfNone, IfSome};
ghost use Rattle.std.specs.Prelude.{IsTrue, OnErr, OnOk, slice_get};
ghost use Rattle.std.specs.Borrow.{sem};
ghost use Rattle.std.specs.List.{position_from, Contains};
ghost use Rattle.item_schema.specs.Items.{IsItemOf};
ghost use Rattle.rate_expr.specs.After.{IsStateOf};
ghost use Rattle.map_collect.specs.LendingTracks.{LendsKeys};
ghost use Rattle.map_collect.specs.Tracks.{begins_at, keys_of, starts_of, states_of, AllAdvance};
ghost use Rattle.map_collect.specs.Tracks.{AreDistinct, AreStates, IsFirstAccepted, IsLiveAmong};
ghost use Rattle.map_collect.specs.Tracks.{KeepsExtending, NoneAccepted};

use crate::states::{advance_all, first_accepted, is_any_live, keep_extending};
use crate::{Keys, Track};
use item_schema::Item;
use predicate_cells::Cells;
use std::alloc::{AllocError, Global};
use std::marker::Model;
use symbolic_nfa::{Nfa, State};

/// The automaton of the rate, and a list of tracks, no two with the same start.
#[derive(Drop)]
pub struct Tracks<R> {
    nfa: Nfa,
    tracks: Vec<Track<R>>,
}

impl<R> Model for Tracks<R> {
    ghost use Rattle.map_collect.specs.Coding.{code_of_contents};
    ghost use Rattle.map_collect.specs.Tracks.{AreTracks, Contents};

    ghost Value = { Contents R };

    ghost coded = { code_of_contents R.code };

    ghost view = { λ t. record { nfa = t.nfa; tracks = t.tracks.items } };

    ghost invariant = { λ t. AreTracks t.nfa.sets t.tracks.items };
}

fn place_of<R>(tracks: &[Track<R>], start: u64) -> Option<usize>
    ensures { result ≡ position_from (begins_at start) 0 tracks.now }
{
    tracks.iter().position(|track| track.start == start)
}

impl<R: Drop> Tracks<R> {
    /// Takes no memory before the first start.
    pub fn new(alloc: Global, nfa: Nfa) -> Tracks<R>
        ensures { result ≡ record { nfa = nfa; tracks = [] } }
    {
        Tracks {
            nfa,
            tracks: Vec::new(alloc),
        }
    }

    pub fn nfa(&self) -> &Nfa
        ensures { result.now ≡ self.now.nfa }
    {
        &self.nfa
    }

    pub fn cells(&self) -> &Cells
        ensures { result.now ≡ self.now.nfa.cells }
    {
        self.nfa.cells()
    }

    pub fn place(&self, start: u64) -> Option<usize>
        ensures there { IfSome result
            (λ i. slice_get (starts_of self.now.tracks) i ≡ Some start) }
        ensures none { IfNone result (Contains (starts_of self.now.tracks) start → ⊥) }
    {
        place_of(&self.tracks, start)
    }

    /// Appends a new start.
    pub fn put(&mut self, start: u64, state: State, keys: Keys<R>) -> Result<(), AllocError>
        requires fresh { Contains (starts_of self.old.tracks) start → ⊥ }
        requires state { IsStateOf self.old.nfa.sets state }
        ensures ok { OnOk result (self.new.tracks
            ≡ self.old.tracks ++ record { start = start; state = state; keys = keys } ∷ []) }
        ensures err { OnErr result (self.new.tracks ≡ self.old.tracks) }
        ensures nfa { self.new.nfa ≡ self.old.nfa }
    {
        self.tracks.push(Track { start, state, keys })?;
        Ok(())
    }

    /// Advances each state by one item. It takes no memory.
    pub fn advance(&mut self, item: &Item)
        requires { IsItemOf self.old.nfa.cells.layout.columns item.now }
        ensures advanced { AllAdvance self.old.nfa.sets item.now
            self.old.tracks self.new.tracks }
        ensures nfa { self.new.nfa ≡ self.old.nfa }
    {
        advance_all(&self.nfa, &mut self.tracks, item);
    }

    /// The index of the first start from which the word is in the rate.
    pub fn accepted(&self) -> Option<usize>
        ensures there { IfSome result (IsFirstAccepted self.now.nfa.sets self.now.tracks) }
        ensures none { IfNone result (NoneAccepted self.now.nfa.sets self.now.tracks) }
    {
        first_accepted(&self.nfa, &self.tracks)
    }

    /// Drops the dead starts: the word from them cannot be extended to a word of the rate. The
    /// others stay in their order.
    pub fn keep(&mut self)
        ensures kept { KeepsExtending self.old.nfa self.old.tracks self.new.tracks }
        ensures nfa { self.new.nfa ≡ self.old.nfa }
    {
        keep_extending(&self.nfa, &mut self.tracks);
    }

    pub fn start(&self, i: usize) -> u64
        requires { i < length self.now.tracks }
        ensures { slice_get (starts_of self.now.tracks) i ≡ Some result }
    {
        self.tracks[i].start
    }

    pub fn state(&self, i: usize) -> State
        requires { i < length self.now.tracks }
        ensures { slice_get (states_of self.now.tracks) i ≡ Some result }
    {
        self.tracks[i].state
    }

    pub fn keys(&self, i: usize) -> &Keys<R>
        requires { i < length self.now.tracks }
        ensures { slice_get (keys_of self.now.tracks) i ≡ Some result.now }
    {
        &self.tracks[i].keys
    }

    pub fn keys_mut(&mut self, i: usize) -> &mut Keys<R>
        requires { i < length self.old.tracks }
        ensures* lends { sem 𝓛 (LendsKeys R.row self.entry i result) }
        ensures value { slice_get (keys_of self.old.tracks) i ≡ Some result.now }
    {
        &mut self.tracks[i].keys
    }

    /// Whether there is such a start, and it is live.
    pub fn is_live(&self, start: u64) -> bool
        ensures { IsTrue result ↔ IsLiveAmong self.now.nfa self.now.tracks start }
    {
        is_any_live(&self.nfa, &self.tracks, start)
    }

    pub fn len(&self) -> usize
        ensures count { result ≡ length self.now.tracks }
        ensures distinct { AreDistinct self.now.tracks }
        ensures states { AreStates self.now.nfa.sets self.now.tracks }
    {
        self.tracks.len()
    }
}
