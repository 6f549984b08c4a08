//! How far the next own deal with each peer was looked for.

ghost use Rattle.std.specs.Prelude.{◌≡◌, ◌==◌, ℕ, find, map};
ghost use Rattle.std.specs.Option.{option_copied};
ghost use Rattle.next_deals.specs.Searches.{at_start, search_in, restarted, all_restarted, missing_from, with_row};

use psb_bytes::{Digest, Memory, PeerId};
use psb_settings::Settings;

/// Where the search with a peer stands, in the order of names: of the chunks that the node has there
/// up to one name none is marked; and of its own chunks up to another that have at most so many units,
/// none is missing there.
#[derive(Clone, Copy)]
pub struct Search {
    pub peer: PeerId,
    pub marked: Option<Digest>,
    pub missing: Option<Digest>,
    pub most: u32,
}

/// Which searches a change starts anew.
#[derive(Clone, Copy)]
pub enum Restarts {
    Nothing,
    All,
    /// The one for a marked chunk, with this peer.
    Marked(PeerId),
    /// The one for a missing chunk, with this peer.
    Missing(PeerId),
}

/// Nothing was looked at yet.
fn at_start(peer: PeerId) -> Search
    ensures { result ≡ at_start peer }
{
    Search {
        peer,
        marked: None,
        missing: None,
        most: 0,
    }
}

fn row_of(searches: &[Search], peer: PeerId) -> Option<&Search>
    ensures { option_copied result ≡ find (λ x. x.peer == peer) searches.now }
{
    searches.iter().find(|x| x.peer == peer)
}

/// Where the search with a peer stands, at its start for one that has no row.
pub fn search_in(searches: &[Search], peer: PeerId) -> Search
    ensures { result ≡ search_in searches.now peer }
{
    match row_of(searches, peer) {
        None => at_start(peer),
        Some(x) => *x,
    }
}

/// From where a missing chunk of at most so many units is looked for: where fewer were looked for
/// before, anew.
pub fn missing_from(x: &Search, most: u32) -> Option<Digest>
    ensures { result ≡ missing_from x.now most }
{
    if most <= x.most { x.missing } else { None }
}

fn restarted(what: &Restarts, x: &Search) -> Search
    ensures { result ≡ restarted what.now x.now.peer x.now }
{
    match what {
        Restarts::Nothing => *x,
        Restarts::All => at_start(x.peer),
        Restarts::Marked(peer) => {
            if *peer != x.peer {
                return *x;
            }
            Search {
                peer: x.peer,
                marked: None,
                missing: x.missing,
                most: x.most,
            }
        }
        Restarts::Missing(peer) => {
            if *peer != x.peer {
                return *x;
            }
            Search {
                peer: x.peer,
                marked: x.marked,
                missing: None,
                most: x.most,
            }
        }
    }
}

/// Starts the searches anew that a change does.
pub fn restart(searches: &mut [Search], what: &Restarts)
    ensures { searches.new ≡ all_restarted what.now searches.old }
{
    for i in 0..searches.len() {
        searches[i] = restarted(what, &searches[i]);
    }
}

/// The row, or the other one where it is of its peer.
fn one_of(old: &Search, new: &Search) -> Search
    ensures { result ≡ with_row new.now old.now }
{
    if old.peer == new.peer { *new } else { *old }
}

/// Puts a row in the place of its peer's, if that has one.
pub fn put_row(searches: &mut [Search], row: &Search)
    ensures { searches.new ≡ map (with_row row.now) searches.old }
{
    for i in 0..searches.len() {
        searches[i] = one_of(&searches[i], row);
    }
}

/// Adds a row for each peer that has none.
pub fn add_rows(searches: &mut Vec<Search>, settings: Option<&Settings>) -> Result<(), Memory>
    ensures { (q : ℕ) → search_in searches.new.items q ≡ search_in searches.old.items q }
{
    let Some(known) = settings else {
        return Ok(());
    };
    let peers = known.peers.as_slice();
    for i in searches.len()..peers.len() {
        searches.push(at_start(peers[i].id))?;
    }
    Ok(())
}
