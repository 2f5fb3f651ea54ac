//! Laws of links to media. The functions do nothing: their contracts are the laws.

ghost use Rattle.doc_media_links.specs.Laws.{PagesWithoutImages, PagesWithoutMedia, PagesWithoutPlaces, ToldPageByPage};

/// A page none of whose links leads to a medium that is seen is filled as among pages alone.
#[tactic(auto, using(crate::proofs::FillingLaws::pages_without_media))]
pub fn pages_without_media()
    ensures { PagesWithoutMedia }
{}

/// A page none of whose links names a place in a medium that is seen is filled by what its links lead to alone.
#[tactic(auto, using(crate::proofs::PlaceLaws::pages_without_places))]
pub fn pages_without_places()
    ensures { PagesWithoutPlaces }
{}

/// What is told of pages by their links and their images is told page by page where links to media are left out.
#[tactic(auto, using(crate::proofs::ImageLaws::told_page_by_page))]
pub fn told_page_by_page()
    ensures { ToldPageByPage }
{}

/// Of a page that tells no images none is told.
#[tactic(auto, using(crate::proofs::ImageLaws::pages_without_images))]
pub fn pages_without_images()
    ensures { PagesWithoutImages }
{}
