//! Laws of what is seen of a stream. They do nothing when they run.

ghost use Rattle.spec_service.specs.StreamAnswering.{CallsAreForTheSeen};
ghost use Rattle.spec_service.specs.Stream.{SeenAreTheRequests};

/// The law that the requests that were seen of a stream, in whatever parts it came, are its first ones by the grammar
/// of `http1`: two are never made of one, nor one of two.
pub fn seen_are_the_requests()
    ensures { SeenAreTheRequests }
{}

/// The law that the requests that were seen of a stream are answered in their order: each call of the server is for the
/// request that was seen in its place.
pub fn calls_are_for_the_seen()
    ensures { CallsAreForTheSeen }
{}
