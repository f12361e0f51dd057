//! What holds of all feeds, as contracts of functions that do nothing.

ghost use Rattle.std.specs.Prelude.{◌≡◌, Ok};
ghost use Rattle.cd_feed.specs.declared.feed.Feed.{Feed};
ghost use Rattle.cd_feed.specs.Feeds.{feed_text, IsFeed, IsFeedFit};
ghost use Rattle.cd_feed.specs.FeedReading.{feed_in};

/// The text of a feed within the limits is read back as that feed, and no two feeds share a text.
pub fn a_text_has_one_feed()
    ensures back { (f : Feed) → IsFeed f → IsFeedFit f → feed_in (feed_text f) ≡ Ok f }
    ensures one { (a b : Feed) → IsFeed a → IsFeedFit a → IsFeed b → IsFeedFit b
        → feed_text a ≡ feed_text b → a ≡ b }
{}
