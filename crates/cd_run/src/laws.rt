//! What holds of all journals, as contracts of functions that do nothing.
ghost use Rattle.std.specs.Prelude.{◌≡◌, ℕ, false, List};
ghost use Rattle.cd_event.specs.declared.entry.Entry.{Entry};
ghost use Rattle.cd_event.specs.declared.names.Who.{Who};
ghost use Rattle.cd_event.specs.Pins.{Named, is_live};
ghost use Rattle.cd_feed.specs.declared.feed.Feed.{Feed};
ghost use Rattle.cd_feed.specs.declared.feed.Task.{Task};
ghost use Rattle.cd_run.specs.Covers.{CutByPhases, CutEarly, CoversBy, CoversPrefixBy};
ghost use Rattle.cd_run.specs.Runs.{TaskEvents, has_failed};

use cd_cell::Hash32;

/// A journal that is cut into one part for each phase, each with its workers' entries, covers the feed.
pub fn a_cut_journal_covers_the_feed<H: Hash32>()
    ensures { (pins : ℕ → List Named) (feed : Feed) (journal : List (Entry H))
        → CutByPhases H.digest_of pins 0 feed.phases journal → CoversBy H.digest_of pins feed journal }
{}

/// So does one whose last part is only begun, but for what is missing.
pub fn a_begun_journal_covers_the_feed_so_far<H: Hash32>()
    ensures { (pins : ℕ → List Named) (feed : Feed) (journal : List (Entry H))
        → CutEarly H.digest_of pins 0 feed.phases journal
        → CoversPrefixBy H.digest_of pins feed journal }
{}

/// Where the keeper fails none of its entries, a task ends each pin that it was given.
pub fn a_task_leaves_no_pin<H: Hash32>()
    ensures { (pins : List Named) (who : Who) (job : Task) (entries : List (Entry H))
        → TaskEvents H.digest_of pins who job entries → has_failed entries ≡ false
        → (pin : ℕ) → is_live pin entries ≡ false }
{}
