//! Laws of caches. Each function does nothing: its contract is the law.

ghost use Rattle.doc_cache.specs.Laws.{CachesStayWithin, KeptTextsAreFound};

/// A cache never has more texts than its capacity, which is 1 to 4,096.
#[tactic(auto, using(crate::proofs::CacheLaws::caches_stay_within))]
pub fn caches_stay_within()
    ensures { CachesStayWithin }
{}

/// A text that was just kept stands under its key.
pub fn kept_texts_are_found()
    ensures { KeptTextsAreFound }
{}
