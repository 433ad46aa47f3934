//! A feed whose logs know what it had to give.

ghost use Rattle.pbf_published.specs.Published.{HasTraced};

use pbf_frame::{Feed, FeedFault};

/// The feed below, with logs that say more: the bytes that have passed by them are the first of those that the feed had to give at its
/// start, if it reports them. It does nothing else.
#[derive(Drop)]
pub struct TracedFeed<F> {
    pub(crate) feed: F,
}

impl<F: Feed> Feed for TracedFeed<F> {
    ghost remaining = { λ t. F.remaining t.feed };

    ghost failures = { λ t. F.failures t.feed };

    ghost lender = { λ t. F.lender t.feed };

    ghost has_passed = { λ t log bytes. HasTraced F.Feed t.feed log bytes };

    fn read(&mut self, buf: &mut [u8]) -> Result<usize, FeedFault> {
        self.feed.read(buf)
    }
}
