// A listing that is checked.
use listing_io::Listing;
use model_types::Listed;

/// The steps of a listing, and the zones of the model's cells, if there is a zone file.
#[derive(Drop)]
pub struct ZonedListing {
    pub zones: Option<Listed<u32>>,
    pub steps: Listing,
}
