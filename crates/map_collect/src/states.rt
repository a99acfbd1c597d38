//! The states of tracks. All are states of one automaton.
ghost use Rattle.std.specs.Prelude.{◌↔◌, IfNone, IfSome, IsTrue};
ghost use Rattle.item_schema.specs.Items.{IsItemOf};
ghost use Rattle.map_collect.specs.Tracks.{AllAdvance, AreStates, IsFirstAccepted, IsLiveAmong};
ghost use Rattle.map_collect.specs.Tracks.{IsLiveAt, KeepsExtending, NoneAccepted};

use crate::Track;
use item_schema::Item;
use symbolic_nfa::Nfa;

pub(crate) fn advance_all<R>(nfa: &Nfa, tracks: &mut [Track<R>], item: &Item)
    requires item { IsItemOf nfa.now.cells.layout.columns item.now }
    requires states { AreStates nfa.now.sets tracks.old }
    ensures advanced { AllAdvance nfa.now.sets item.now tracks.old tracks.new }
    ensures states { AreStates nfa.now.sets tracks.new }
{
    let cell = nfa.cells().of(item);
    'tracks: for track in tracks.iter_mut() {
        track.state = nfa.step(track.state, cell);
    }
}

pub(crate) fn first_accepted<R>(nfa: &Nfa, tracks: &[Track<R>]) -> Option<usize>
    ensures there { IfSome result (IsFirstAccepted nfa.now.sets tracks.now) }
    ensures none { IfNone result (NoneAccepted nfa.now.sets tracks.now) }
{
    tracks.iter().position(|track| nfa.accepts(track.state))
}

pub(crate) fn keep_extending<R: Drop>(nfa: &Nfa, tracks: &mut Vec<Track<R>>)
    ensures { KeepsExtending nfa.now tracks.old.items tracks.new.items }
{
    tracks.retain(|track| nfa.extends(track.state));
}

fn is_live_at<R>(nfa: &Nfa, track: &Track<R>, start: u64) -> bool
    ensures { IsTrue result ↔ IsLiveAt nfa.now start track.now }
{
    track.start == start && nfa.extends(track.state)
}

pub(crate) fn is_any_live<R>(nfa: &Nfa, tracks: &[Track<R>], start: u64) -> bool
    ensures { IsTrue result ↔ IsLiveAmong nfa.now tracks.now start }
{
    tracks.iter().any(|track| is_live_at(nfa, track, start))
}
