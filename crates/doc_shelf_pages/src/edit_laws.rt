//! Laws of what a shelf keeps. Each function does nothing: its contract is the law.

ghost use Rattle.doc_shelf_pages.specs.EditLaws.{CachesHaveDocuments, DocumentsAreFound, EditsOfKept, WhatIsKeptIsHeld};

/// What is kept of a store's pages stays so through each put, removal and move, also where the store refuses.
pub fn edits_of_kept()
    ensures { EditsOfKept }
{}

/// What is kept of a store's pages is what indexes hold of them, and of each page its rendering.
pub fn what_is_kept_is_held()
    ensures { WhatIsKeptIsHeld }
{}

/// A cache of documents has documents alone, also after an edit: no text of it has to be dropped, since a page that is put or moved
/// gets a stamp that no text stands under.
pub fn caches_have_documents()
    ensures { CachesHaveDocuments }
{}

/// A document that is found under a page's stamp and a reader's decisions is the page's as that reader sees it, for whichever reader
/// it was made.
pub fn documents_are_found()
    ensures { DocumentsAreFound }
{}
