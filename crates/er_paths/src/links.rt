//! Chains and links over lists of predecessors.

ghost use Rattle.er_paths.specs.links.Laws.{ChainsAreFirstFit, ChainsOfPaths, ChainsStay, ChainsTellPaths, EachInOneChain, EntryOfItself};
ghost use Rattle.er_paths.specs.links.Laws.{HandedChains, HandedLinks, LinksAreDirect, LinksAreLeast, LinksAscend, LinksHaveThePaths, LinksOfPaths, LinksStay};
ghost use Rattle.er_paths.specs.links.Rows.{WorkedRows};

/// An action joins the lowest chain whose last member has a path to it, else it begins a new one.
pub fn chains_are_first_fit()
    ensures { ChainsAreFirstFit }
{}

/// Each action stands in one chain alone.
pub fn each_in_one_chain()
    ensures { EachInOneChain }
{}

/// Of its own chain, the members up to an action itself have a path to it.
#[tactic(auto, using(crate::proofs::links::Fits::entry_of_itself))]
pub fn entry_of_itself()
    ensures { EntryOfItself }
{}

/// Later lists change no chain, place or entry of an earlier action.
pub fn chains_stay()
    ensures { ChainsStay }
{}

/// A place and an entry tell whether there is a path.
#[tactic(auto, using(crate::proofs::links::Chains::chains_tell_paths))]
pub fn chains_tell_paths()
    ensures { ChainsTellPaths }
{}

/// Lists with the same paths have the same chains.
#[tactic(auto, using(crate::proofs::links::Chains::chains_of_paths))]
pub fn chains_of_paths()
    ensures { ChainsOfPaths }
{}

/// Where enough of the predecessors are handed, the chains are those of the whole lists.
#[tactic(auto, using(crate::proofs::links::Handed::handed_chains))]
pub fn handed_chains()
    ensures { HandedChains }
{}

/// A link is a path with no third action on it.
#[tactic(auto, using(crate::proofs::links::Links::links_are_direct))]
pub fn links_are_direct()
    ensures { LinksAreDirect }
{}

/// The sources of the links into an action are listed ascending.
pub fn links_ascend()
    ensures { LinksAscend }
{}

/// Later lists change no link into an earlier action.
#[tactic(auto, using(crate::proofs::links::Links::links_stay))]
pub fn links_stay()
    ensures { LinksStay }
{}

/// The paths over the links are the paths.
#[tactic(auto, using(crate::proofs::links::Links::links_have_the_paths))]
pub fn links_have_the_paths()
    ensures { LinksHaveThePaths }
{}

/// Every set of pairs with the same paths has each link.
pub fn links_are_least()
    ensures { LinksAreLeast }
{}

/// Lists with the same paths have the same links.
#[tactic(auto, using(crate::proofs::links::Links::links_of_paths))]
pub fn links_of_paths()
    ensures { LinksOfPaths }
{}

/// Where enough of the predecessors are handed, the links are those of the whole lists.
#[tactic(auto, using(crate::proofs::links::Handed::handed_links))]
pub fn handed_links()
    ensures { HandedLinks }
{}

/// Small lists with their chains, places, entries and links.
pub fn worked_rows()
    ensures { WorkedRows }
{}
