// The search of a signature list (document 01, "The signature list"; document 02, Wishes 3 and 6): added by the port.
#![tactic(auto)]

ghost use Rattle.std.specs.Prelude.{◌≡◌};
ghost use Rattle.search.specs.declared.SearchRefusal.TheVariants.{List};
ghost use Rattle.search.specs.Search.{searched, search_list, as_refusal};

use finding::search_records;
use found::{Found, Searched};
use matching::features_of;
use observable::TcpObservation;
use refusals::{ListRefusal, Refusal};
use siglist::{SigList, check_list, read_header};

mod finding;

// Why a search, or its list, is refused.
#[derive(Clone, Copy)]
pub enum SearchRefusal {
    LayoutTooLong,
    List(ListRefusal),
}

impl From<ListRefusal> for SearchRefusal {
    ghost from_gives = { λ why r. r ≡ List why };

    fn from(why: ListRefusal) -> SearchRefusal {
        SearchRefusal::List(why)
    }
}

impl From<SearchRefusal> for Refusal {
    ghost from_gives = { λ why r. r ≡ as_refusal why };

    fn from(why: SearchRefusal) -> Refusal {
        match why {
            SearchRefusal::LayoutTooLong => Refusal::LayoutTooLong,
            SearchRefusal::List(of_list) => Refusal::List(of_list),
        }
    }
}

// The search of a list that was checked before. It is total: what is not a well-formed record of the list does not fit, and a list
// that does not fit has no records. The observation's features come first: the list's areas are then not carried past them
// (docs/DECISIONS.md, 96). The layout is copied out: a borrow into the observation costs a search 33 instructions.
pub fn search_checked(observed: TcpObservation, list: &[u8]) -> Searched
    ensures { result ≡ searched observed list.now }
{
    let features = features_of(observed);
    let Some(areas) = read_header(list) else {
        return Searched {
            found: Found::None,
            examined: 0,
        };
    };
    let layout = observed.olayout;
    search_records(features, &layout, SigList { bytes: list, areas })
}

// The search with its refusals: 11, then 9, then 10.
#[tactic(auto, unfolding(crate::specs::Search::search_list))]
pub fn search(observed: TcpObservation, list: &[u8]) -> Result<Searched, SearchRefusal>
    ensures { result ≡ search_list observed list.now }
{
    if 40 < observed.olayout.count {
        return Err(SearchRefusal::LayoutTooLong);
    }
    check_list(list)?;
    Ok(search_checked(observed, list))
}
